// Replays a list of cases from standard input: answers of the Rust, stored with what it was asked. It asks our library
// the same, and prints for each op how many answers agree and how many do not. A case that is cut short does not agree.
// The list was made by the comparison's driver from the Rust alone: in compare, `cargo run --offline --release --bin
// compare --no-default-features -- --fixed FILE`.
//
// A case is the length of the rest (2 bytes), at most 4,000, and the rest: op (1), what was asked, and the answer up to
// the end. Numbers are little-endian. Pieces:
// - RECORD: kind 1, sequence 4, workflow kind 2, workflow version 2, activity 2, input length 2, input check 4, clock
//   kind 1, deadline 8, armed at 8, gate 2, version 2. Numbers that the kind lacks are 0.
// - BYTES: length 2, then the bytes.
// - REFUSED: number 1, needed 4, available 4; zeros where nothing is refused.
// - FOUND: RECORD, then place 4 and length 4 of the free bytes, from the record's first byte on; 0, 0 if it has none.
// The ops, a being the program unit and r the read unit (2 each):
// - 1 checks: BYTES. Header check 2, frame check 4.
// - 2 encode: a, RECORD, BYTES free, length of the output 2. For each of encoded_len, body_len and encode: REFUSED,
//   length 4; then the output.
// - 3 decode: BYTES. REFUSED; if none: whether the kind is known 1, FOUND (of an unknown kind only the kind), frame
//   length 4, frame check 4, format version 1.
// - 4 recovery: a, r, page length 2, BYTES region. For each step: 1 found, with offset 4 and FOUND, 2 ended, or
//   3 refused, with REFUSED; then the offset held 4, the ending 1 (0 open, 1 clean, 2 damaged, 3 incomplete,
//   4 unsealed), the page.
// - 5 scan: a, BYTES journal. For each step: the same, then the offset held 4.
// - 6 append: a, r, page length 2, BYTES region, number of calls 1, the calls: 0 open, 1 stage with RECORD and BYTES
//   free, 2 payload barrier, 3 commit. For each call: REFUSED, and for a commit its own four counts (4 each). Then
//   whether there is a journal 1; if so its offset 4 and its four counts; the region and the page.
// Recovery and scan end with the first step that finds no record. Outputs and pages are 0xA5 throughout at first.
#![tactic(auto)]

mod answer;
mod appends;
mod frames;
mod walks;

use appends::appends;
use frames::{checks, decodes, encodes};
use testing::out::Out;
use testing::parts::{array, first};
use testing::tally::Tally;
use walks::{recovers, scans};

const STDIN_FILENO: i32 = 0;

// Bytes enough for a case, and so for each region, page and output in one.
const MOST: usize = 4096;

// What fills a page and an output before.
const FILL: u8 = 0xa5;

// A unit or a length, which has 2 bytes.
fn unit(case: &mut &[u8]) -> Option<u16> {
    Some(u16::from_le_bytes(array(case)?))
}

// Numbers of the file, and no enum: it would be matched once more, to be read.
const CHECKS: u8 = 1;

const ENCODE: u8 = 2;

const DECODE: u8 = 3;

const RECOVERY: u8 = 4;

const SCAN: u8 = 5;

const APPEND: u8 = 6;

// How the answers of each op agree, and those of no op.
#[derive(Clone, Copy, Default)]
struct Tallies {
    checks: Tally,
    encode: Tally,
    decode: Tally,
    recovery: Tally,
    scan: Tally,
    append: Tally,
    other: Tally,
}

impl Tallies {
    fn add(&mut self, case: &[u8]) {
        let (op, asked) = case
            .split_first()
            .map_or((0, case), |(op, asked)| (*op, asked));
        match op {
            CHECKS => self.checks.add(checks(asked).is_some()),
            ENCODE => self.encode.add(encodes(asked).is_some()),
            DECODE => self.decode.add(decodes(asked).is_some()),
            RECOVERY => self.recovery.add(recovers(asked).is_some()),
            SCAN => self.scan.add(scans(asked).is_some()),
            APPEND => self.append.add(appends(asked).is_some()),
            _ => self.other.add(false),
        }
    }
}

// Adds the next case of the input, and says whether more may come. Cases are read one by one, so that an input of any
// length is replayed in the same memory. One that the input or the room cuts short is the last; of it the op alone is
// given, so that no answer is there.
fn add_next(tallies: &mut Tallies, room: &mut [u8; MOST]) -> bool {
    let mut head = [0; 2];
    let n = io::read_full(STDIN_FILENO, &mut head);
    if n < head.len() {
        if n != 0 {
            tallies.add(&[]);
        }
        return false;
    }
    let Some(case) = room.get_mut(..usize::from(u16::from_le_bytes(head))) else {
        tallies.add(&[]);
        return false;
    };
    let came = io::read_full(STDIN_FILENO, case);
    let is_whole = came == case.len();
    tallies.add(if is_whole {
        case
    } else {
        first(case, came.min(1))
    });
    is_whole
}

fn show_all(rt: &impl Print) -> std::io::Result<()> {
    let mut tallies = Tallies::default();
    let mut room = [0; MOST];
    // There are fewer cases.
    for _ in 0..u32::MAX {
        if !add_next(&mut tallies, &mut room) {
            break;
        }
    }
    println!(rt; "checks: {}", tallies.checks)?;
    println!(rt; "encode: {}", tallies.encode)?;
    println!(rt; "decode: {}", tallies.decode)?;
    println!(rt; "recovery: {}", tallies.recovery)?;
    println!(rt; "scan: {}", tallies.scan)?;
    println!(rt; "append: {}", tallies.append)?;
    println!(rt; "other: {}", tallies.other)
}

fn main() {
    let _ = show_all(&Out);
}
