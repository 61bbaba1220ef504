// Runs the two checks on values from outside and prints what they give; the file stdout has what they must give.
// It was not made from this program: make_stdout.py beside it has the published values, and makes the two tables
// with Python's own CRCs.
#![tactic(auto)]

ghost use Rattle.std.specs.Prelude.{◌<◌};

use integrity::{frame_check, header_check};
use std::io;
use testing::out::Out;
use testing::parts::first;

// Both checks, or what stands for them, behind a name.
fn show(rt: &impl Print, name: &str, header: u16, frame: u32) -> io::Result<()> {
    println!(rt; "{name}: {header:#06x} {frame:#010x}")
}

fn show_checks(rt: &impl Print, name: &str, message: &[u8]) -> io::Result<()> {
    show(rt, name, header_check(message), frame_check(message))
}

// Room for nine bytes and a check.
const MOST: usize = 13;

// A message with a check behind it, at the start of what is answered.
fn followed(message: &[u8], check: &[u8]) -> [u8; MOST] {
    let mut bytes = [0; MOST];
    for (byte, given) in bytes.iter_mut().zip(message.iter().chain(check)) {
        *byte = *given;
    }
    bytes
}

// A message followed by its own check, least significant octet first, for each of the two: the registers before the
// complement.
fn show_good(rt: &impl Print, name: &str, message: &[u8]) -> io::Result<()> {
    let header = header_check(message).to_le_bytes();
    let frame = frame_check(message).to_le_bytes();
    let with_header = followed(message, &header);
    let with_frame = followed(message, &frame);
    show(
        rt,
        name,
        !header_check(first(&with_header, message.len() + header.len())),
        !frame_check(first(&with_frame, message.len() + frame.len())),
    )
}

// RFC 1662's table of a check, so many entries in a line of so many characters each. Entry i is the register of all
// ones that takes up the octet that leaves i at its low end, without the ones that are left at its high end.
fn show_table<C: Fn(&[u8]) -> u32>(
    rt: &impl Print,
    columns: u8,
    width: usize,
    check: C,
    high: u32,
) -> io::Result<()>
    requires some { 0 < columns }
    requires callable { C.IsAlwaysCallable check }
{
    for i in 0..=255u8 {
        let entry = check(&[!i]) ^ high;
        let end = if i % columns == columns - 1 {
            "\n"
        } else {
            " "
        };
        print!(rt; "{entry:#0width$x}{end}")?;
    }
    Ok(())
}

fn show_all(rt: &impl Print) -> io::Result<()> {
    show_checks(rt, "123456789", b"123456789")?;
    show_checks(rt, "nothing", b"")?;
    show_good(rt, "123456789 and its check", b"123456789")?;
    show_good(rt, "nothing and its check", b"")?;
    rt.println("RFC 1662's tables:")?;
    show_table(rt, 8, 6, |octet| u32::from(header_check(octet)), 0xff00)?;
    show_table(rt, 4, 10, frame_check, 0xff000000)
}

fn main() {
    let _ = show_all(&Out);
}
