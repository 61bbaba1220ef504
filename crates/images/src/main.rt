// Makes the example images with the library's own encode. Standard input says which, 1 or 2; standard output is the
// image, as the listing program reads it: the units, then the region. Where no image is named, standard error says
// so; where a stream fails too, with status 1.
#![tactic(auto)]

mod records;

use encode::encode;
use records::{fired, gate, outcome, scheduled, started, timer};
use std::io::{self, Read, Write};
use std::process::ExitCode;
use stdio::{Failure, exit_code, read_all};
use text::{LINE_FEED, Output, number_of, split_once};
use waymaker_core::record::{Record, RecordKind};

// A record at a place of the region, in program units of 4 bytes.
fn put(region: &mut [u8], at: usize, record: Record, free: &[u8]) {
    if let Some(rest) = region.get_mut(at..) {
        // What does not fit is left out: an image that came out wrong shows in its listing.
        let _ = encode(record, free, 4, rest);
    }
}

// Leaves the four bytes of a slot as they were before its commit.
fn unseal(region: &mut [u8], slot: usize) {
    let mut seal = Output {
        bytes: region,
        place: slot,
    };
    seal.put(b"\xff\xff\xff\xff");
}

// A run started, and the first effect scheduled.
fn begin(region: &mut [u8]) {
    put(region, 0, started(3, 1), b"zone 12");
    put(region, 32, scheduled(1, 2, 7), b"");
}

// A timer that fired, cut before its commit: it is skipped.
fn lost(region: &mut [u8]) {
    put(region, 124, fired(2), b"");
    unseal(region, 140);
}

// A timer, lost once and then given again.
fn wait(region: &mut [u8]) {
    put(region, 84, timer(2, 600), b"");
    lost(region);
    put(region, 144, fired(2), b"");
}

// The end of a run.
fn end(region: &mut [u8]) {
    put(region, 164, gate(3, 7), b"");
    put(
        region,
        188,
        outcome(RecordKind::EFFECT_FAILED, 4),
        b"no light",
    );
    put(region, 216, outcome(RecordKind::RUN_COMPLETED, 0), b"done");
}

// An update that ran to its end.
fn update() -> [u8; 320] {
    let mut region = [255u8; 320];
    begin(&mut region);
    put(
        &mut region,
        60,
        outcome(RecordKind::EFFECT_COMPLETED, 1),
        b"ok",
    );
    wait(&mut region);
    end(&mut region);
    region
}

// An update whose second effect was cut before its commit: nothing may be read past it.
fn cut() -> [u8; 128] {
    let mut region = [255u8; 128];
    begin(&mut region);
    put(&mut region, 60, scheduled(2, 2, 9), b"");
    unseal(&mut region, 84);
    region
}

// Writes the image of a region.
fn show(writer: &mut impl Write, region: &[u8]) -> io::Result<()> {
    writer.write_all(b"4,1\n")?;
    writer.write_all(region)
}

// The number on the first line.
fn chosen(s: &[u8]) -> Option<u64> {
    number_of(split_once(s, LINE_FEED).map_or(s, |(line, _)| line))
}

fn make_image(
    rt: &impl Eprint,
    reader: &mut impl Read,
    writer: &mut impl Write,
) -> Result<(), Failure> {
    let mut line = [0u8; 16];
    let n = read_all(reader, &mut line).map_err(|_| Failure::Input)?;
    let written = match chosen(&line[..n]) {
        Some(1) => show(writer, &update()),
        Some(2) => show(writer, &cut()),
        _ => {
            let _ = rt.eprintln("images: standard input says which image, 1 or 2");
            return Ok(());
        }
    };
    written.map_err(|_| Failure::Output)
}

fn main(rt: HostRuntime) -> ExitCode {
    exit_code(
        &rt,
        "images",
        make_image(&rt, &mut rt.stdin(), &mut rt.stdout()),
    )
}
