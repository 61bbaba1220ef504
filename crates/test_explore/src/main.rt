// Cuts appends at many bits, opens again, appends again, and compares what recovery finds with a book kept here.
// For each family it prints how many cuts were tried, after how many the region opened, and how many differed.
// A cut is a set of bits left old: there are 2 to the number of the seal's 0 bits for a slot, and n (n + 1) / 2 pairs
// of the n bits of a body. A region opens where the body is whole and its kind may be skipped, where it is erased, and
// where the seal is whole. make_stdout.py beside this counts both with no cut made. In the last family nothing is cut:
// something else writes, and each byte of that is compared.
#![tactic(auto)]

mod chance;
mod cut;
mod device;
mod foreign;
mod item;
mod tally;

use chance::{frames, headers};
use cut::{Cut, cuts};
use foreign::writes;
use item::Item;
use std::io;
use tally::Tally;
use testing::out::Out;
use waymaker_core::record::RecordKind;

const ITEMS: [Item; 3] = [
    // An outcome with no payload. Its seal has 13 bits of 0, as that of the next one has, and the last one's 14: more
    // would take long, and fewer would be few sets.
    Item {
        kind: RecordKind::TIMER_FIRED,
        seq: 57,
        len: 0,
    },
    // An outcome with a payload, and padding where a is 2 or 4.
    Item {
        kind: RecordKind::EFFECT_COMPLETED,
        seq: 10,
        len: 3,
    },
    // A record that recovery does not skip.
    Item {
        kind: RecordKind::RUN_COMPLETED,
        seq: 0,
        len: 4,
    },
];

// All cuts of a family, of each item.
fn all<F: Fn(&Cut, &mut Tally)>(a: u32, family: F) -> Tally
    requires { F.IsAlwaysCallable family }
{
    let mut tally = Tally::default();
    for item in ITEMS {
        cuts(&mut tally, a, item, &family);
    }
    tally
}

// Of bits lo and hi of a body, whether bit k is one of them, and whether it is within them.
fn is_end(lo: usize, hi: usize, k: usize) -> bool {
    k == lo || k == hi
}

fn is_within(lo: usize, hi: usize, k: usize) -> bool {
    (lo..=hi).contains(&k)
}

fn explore(rt: &impl Print, a: u32) -> io::Result<()> {
    let slots = all(a, |cut, tally| cut.slots(tally));
    println!(rt; "a={a} slot subsets: {slots}")?;
    let two = all(a, |cut, tally| cut.pairs(tally, is_end));
    println!(rt; "a={a} body, one or two bits left old: {two}")?;
    let all_but_two = all(
        a,
        |cut, tally| cut.pairs(tally, |lo, hi, k| !is_end(lo, hi, k)),
    );
    println!(rt; "a={a} body, one or two bits programmed: {all_but_two}")?;
    let run = all(a, |cut, tally| cut.pairs(tally, is_within));
    println!(rt; "a={a} body, a run of bits left old: {run}")?;
    let all_but_run = all(
        a,
        |cut, tally| cut.pairs(tally, |lo, hi, k| !is_within(lo, hi, k)),
    );
    println!(rt; "a={a} body, a run of bits programmed: {all_but_run}")?;
    println!(rt;
        "a={a} body, its header check agrees by chance: {}",
        headers(a)
    )?;
    println!(rt;
        "a={a} body, its frame check agrees by chance: {}",
        frames(a)
    )?;
    println!(rt; "a={a} something else writes: {}", writes(a, &ITEMS))
}

fn show_all(rt: &impl Print) -> io::Result<()> {
    explore(rt, 1)?;
    explore(rt, 2)?;
    explore(rt, 4)
}

fn main() {
    let _ = show_all(&Out);
}
