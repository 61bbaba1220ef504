// Runs vectors of encode and decode from standard input; make_stdin.py beside it made them, with their answers, from
// document 01 alone. A vector is a tag (1 byte), the length of the rest (2), and the rest; numbers are little-endian.
// It prints for each tag how many answers agree and how many do not.
#![tactic(auto)]

mod altered;
mod decoding;
mod encoding;
mod vectors;

use altered::{cuts, flips};
use decoding::decode_agrees;
use encoding::encode_agrees;
use testing::out::Out;
use testing::tally::Tally;
use vectors::Vectors;

const STDIN_FILENO: i32 = 0;

// The most that is read: what comes behind it is left.
const MOST: usize = 131072;

// Numbers of the file, and no enum: it would be matched once more, to be read.
const ENCODE: u8 = 1;

const DECODE: u8 = 2;

const CUTS: u8 = 3;

const FLIPS: u8 = 4;

// Runs all vectors and prints their tallies. A vector that is cut short does not agree.
fn run(rt: &impl Print, input: &[u8]) -> std::io::Result<()> {
    let mut encode = Tally::default();
    let mut decode = Tally::default();
    let mut cut = Tally::default();
    let mut flipped = Tally::default();
    for (tag, vector) in Vectors(input) {
        match tag {
            ENCODE => encode.add(vector.and_then(encode_agrees).unwrap_or(false)),
            DECODE => decode.add(vector.and_then(decode_agrees).unwrap_or(false)),
            CUTS => cuts(&mut cut, vector),
            FLIPS => flips(&mut flipped, vector),
            _ => {}
        }
    }
    println!(rt; "encode: {encode}\ndecode: {decode}\ncuts: {cut}\nflips: {flipped}")
}

fn show_all(rt: &impl Print) -> std::io::Result<()> {
    let mut input = [0; MOST];
    let n = io::read_full(STDIN_FILENO, &mut input);
    println!(rt; "{n} bytes of vectors")?;
    run(rt, &input[..n])
}

fn main() {
    let _ = show_all(&Out);
}
