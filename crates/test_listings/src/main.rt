// Lists small inputs: document 01's example, regions without a record, and inputs that are refused; then a region of
// 32,768 bytes and one of a byte more.
#![tactic(auto)]

use report::input::list;
use std::io::{self, Write};
use testing::out::Out;

// Each with its name. The first is a sealed timer fired, sequence 7, and 20 bytes 0xFF.
const INPUTS: [(&str, &[u8]); 19] = [
    (
        "document 01's example:\n",
        b"4,1\n\x57\x4d\x01\x06\x07\x00\x00\x00\x00\x00\xb6\x0a\x89\xda\xbd\xea\x09\x5a\x3d\x6a\xff\xff\xff\xff\xff\xff\xff\xff\xff\xff\xff\xff\xff\xff\xff\xff\xff\xff\xff\xff",
    ),
    ("no region: ", b"4,1\n"),
    ("the widest units: ", b"256,4096\n\xff"),
    (
        "eleven bytes, one 0x00: ",
        b"1,1\n\xff\xff\xff\xff\xff\xff\xff\xff\xff\xff\x00",
    ),
    (
        "twelve bytes 0x00: ",
        b"1,1\n\x00\x00\x00\x00\x00\x00\x00\x00\x00\x00\x00\x00",
    ),
    ("nothing: ", b""),
    ("no line feed: ", b"4,1"),
    ("no comma: ", b"4 1\n"),
    ("no units: ", b",\n"),
    ("a zero in front: ", b"04,1\n"),
    ("a blank: ", b"4, 1\n"),
    ("a sign: ", b"+4,1\n"),
    ("a third number: ", b"4,1,1\n"),
    ("a = 4,294,967,300: ", b"4294967300,1\n"),
    ("a of 21 digits: ", b"100000000000000000004,1\n"),
    ("a = 3: ", b"3,1\n"),
    ("a = 512: ", b"512,1\n"),
    ("r = 0: ", b"4,0\n"),
    ("r = 8,192: ", b"4,8192\n"),
];

// Prints a name and the listing of an input.
fn show(rt: &impl Print, name: &str, input: &[u8]) -> io::Result<()> {
    let mut out = [0u8; 64];
    let end = list(input, &mut out);
    rt.print(name)?;
    io::writer(rt).write_all(&out[..end])
}

fn show_all(rt: &impl Print) -> io::Result<()> {
    for (name, input) in INPUTS {
        show(rt, name, input)?;
    }
    let mut input = [255u8; 32773];
    input[..4].copy_from_slice(b"4,1\n");
    show(rt, "32,768 bytes: ", &input[..32772])?;
    show(rt, "32,769 bytes: ", &input)
}

fn main() {
    let _ = show_all(&Out);
}
