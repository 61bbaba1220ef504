// Reads the same bytes by the reader that keeps its payload and by the cursor, past the end among them, and prints
// how many answers agree.
#![tactic(auto)]

mod falling;
mod started;

use falling::{by_cursor, by_reader};
use payload_reader::Reader;
use started::{show_started, start_agrees};
use std::{fmt, io};
use testing::out::Out;
use testing::parts::first;

const BYTES: &[u8] =
    b"\x01\x02\x03\x04\x05\x06\x07\x08\xf1\xf2\xf3\xf4\xf5\xf6\xf7\xf8\x11\x12\x13\x14\x15\x16\x17\x18";

// A number that was taken, or that there was none.
#[derive(Clone, Copy)]
struct Taken<T>(Option<T>);

impl<T: fmt::Display> fmt::Display for Taken<T> {
    fn fmt<W: fmt::Write>(&self, f: &mut fmt::Formatter<W>) -> fmt::Result {
        match &self.0 {
            Some(n) => write!(f, " {n}"),
            None => f.write_str(" end"),
        }
    }
}

fn agree(r: Reader) -> bool {
    by_reader(r) == by_cursor(r) && start_agrees(r.payload)
}

// Every length to 24, from every place to 27: how many agree.
fn agreeing(bytes: &[u8]) -> usize {
    (0..=24usize)
        .map(|n| {
            let payload = first(bytes, n);
            (0..=27usize)
                .filter(|at| agree(Reader { payload, at: *at }))
                .count()
        })
        .fold(0, usize::saturating_add)
}

fn show(rt: &impl Print, r: Reader) -> io::Result<()> {
    let seen = by_reader(r);
    print!(rt; "of {} bytes, from {}:", r.payload.len(), r.at)?;
    print!(rt; "{}{}", Taken(seen.eight.0), Taken(seen.four.0))?;
    print!(rt; "{}{}", Taken(seen.two.0), Taken(seen.one.0))?;
    println!(rt; "; at {}, left {}", seen.one.1, seen.rest.len())
}

fn show_all(rt: &impl Print) -> io::Result<()> {
    show(rt, Reader::new(BYTES))?;
    show(rt, Reader::new(first(BYTES, 15)))?;
    for at in [0, 6, 8] {
        let payload = first(BYTES, 7);
        show(rt, Reader { payload, at })?;
    }
    let past_end = Reader {
        payload: BYTES,
        at: usize::MAX,
    };
    show(rt, past_end)?;
    for n in [3, 4, 24] {
        show_started(rt, first(BYTES, n))?;
    }
    println!(rt; "agree: {} of 700", agreeing(BYTES))
}

fn main() {
    let _ = show_all(&Out);
}
