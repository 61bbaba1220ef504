// Prints the listing of a region: its units and its bytes come on standard input. The status is 0 where the listing was
// written, whatever it says; what cannot be read or written is said on standard error, with status 1.
#![tactic(auto)]

use report::input::{INPUT_ROOM, LISTING_ROOM, list_input};
use std::io::{Read, Write};
use std::process::ExitCode;
use stdio::{Failure, exit_code, read_all};

fn print_listing(reader: &mut impl Read, writer: &mut impl Write) -> Result<(), Failure> {
    let mut input = [0u8; INPUT_ROOM];
    let mut out = [0u8; LISTING_ROOM];
    let n = read_all(reader, &mut input).map_err(|_| Failure::Input)?;
    let end = list_input(&input, n, &mut out);
    writer.write_all(&out[..end]).map_err(|_| Failure::Output)
}

fn main(rt: HostRuntime) -> ExitCode {
    exit_code(
        &rt,
        "listing",
        print_listing(&mut rt.stdin(), &mut rt.stdout()),
    )
}
