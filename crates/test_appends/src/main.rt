// Appends to small regions and prints each step: records that go through, steps out of order, what does not fit, and
// what would go over a byte that something else has written; then openings that go on from counts.
#![tactic(auto)]

mod shown;

use append::step::{commit, payload_barrier};
use counts::WriteAmplification;
use journal::Journal;
use shown::Step;
use staging::step::stage;
use std::io;
use testing::out::Out;
use testing::refusals::Refused;
use waymaker_core::error::Refusal;
use waymaker_core::id::EffectSeq;
use waymaker_core::record::{Record, RecordKind};
use waymaker_core::timer::ClockKind;

// A place past every region.
const NOWHERE: usize = 64;

// The largest count that an opening takes, 2 to the 62nd, and the next.
const TAKEN: u64 = 0x4000_0000_0000_0000;

const ABOVE: u64 = 0x4000_0000_0000_0001;

// A step of an append. A list of closures would have no names to print, and test_lents' steps take free bytes too.
#[derive(Clone, Copy)]
enum Call {
    Stage(Record),
    Barrier,
    Commit,
}

// Makes a step, prints its answer, and gives the journal on.
fn show(
    rt: &impl Print,
    journal: Journal,
    call: Call,
    region: &mut [u8],
    page: &mut [u8],
) -> io::Result<Journal> {
    let (name, step) = match call {
        Call::Stage(record) => ("stage", stage(journal, record, b"", region, page)),
        Call::Barrier => ("barrier", payload_barrier(journal, region)),
        Call::Commit => ("commit", commit(journal, region)),
    };
    println!(rt; "{name}: {}", Step(step))?;
    Ok(step.journal)
}

fn fired(seq: u32) -> Call {
    Call::Stage(Record::new(RecordKind::TIMER_FIRED, EffectSeq(seq)))
}

// Two records that are refused, for their clock and their kind, and a barrier with nothing under way; then an append
// with a second stage and an early commit, which change nothing; and an append in order.
fn calls() -> [Call; 11] {
    let no_clock = Record {
        clock_kind: ClockKind(3),
        ..Record::new(RecordKind::TIMER_SCHEDULED, EffectSeq(9))
    };
    let no_kind = Record::new(RecordKind(0), EffectSeq(0));
    [
        Call::Stage(no_clock),
        Call::Stage(no_kind),
        Call::Barrier,
        fired(7),
        fired(8),
        Call::Commit,
        Call::Barrier,
        Call::Commit,
        fired(8),
        Call::Barrier,
        Call::Commit,
    ]
}

// What an opening answers, and appends of what fits.
fn append(
    rt: &impl Print,
    opening: Result<Journal, Refusal>,
    region: &mut [u8],
    page: &mut [u8],
) -> io::Result<()> {
    let mut journal = match opening {
        Ok(journal) => journal,
        Err(refusal) => return rt.println(Refused(refusal)),
    };
    println!(rt; "ready at {}", journal.offset)?;
    for call in calls() {
        journal = show(rt, journal, call, region, page)?;
    }
    Ok(())
}

// Opens and appends; before the first step something else writes a byte, where the region has that place.
fn run(
    rt: &impl Print,
    name: &str,
    region: &mut [u8],
    page: &mut [u8],
    at: usize,
) -> io::Result<()> {
    rt.println(name)?;
    let opening = Journal::open(4, 1, region, page);
    if let Some(byte) = region.get_mut(at) {
        *byte = 0;
    }
    append(rt, opening, region, page)
}

// Opens from counts and appends.
fn go_on(rt: &impl Print, name: &str, written: WriteAmplification) -> io::Result<()> {
    let mut region = [255; 40];
    let mut page = [0; 64];
    rt.println(name)?;
    let opening = Journal::open_with(written, 4, 1, &region, &mut page);
    append(rt, opening, &mut region, &mut page)
}

// Counts that are all the same.
fn all(n: u64) -> WriteAmplification {
    WriteAmplification {
        payload_bytes: n,
        programmed_bytes: n,
        program_operations: n,
        barriers: n,
        uncommitted_appends: n,
    }
}

// The largest that an opening takes with one count above it, each in turn; nothing is read, so that the page stays.
fn above(rt: &impl Print) -> io::Result<()> {
    let mut each = [all(TAKEN); 5];
    each[0].payload_bytes = ABOVE;
    each[1].programmed_bytes = ABOVE;
    each[2].program_operations = ABOVE;
    each[3].barriers = ABOVE;
    each[4].uncommitted_appends = ABOVE;
    for written in each {
        let mut page = [7; 64];
        let opening = Journal::open_with(written, 4, 1, &[255; 40], &mut page);
        append(rt, opening, &mut [255; 40], &mut page)?;
        println!(rt; "the page as it was: {}", page == [7; 64])?;
    }
    Ok(())
}

// Openings from counts. Refusal 24 comes behind 1 and before 3.
fn handed(rt: &impl Print) -> io::Result<()> {
    go_on(rt, "counts of 4294967290", all(4_294_967_290))?;
    go_on(rt, "counts of 2 to the 62nd", all(TAKEN))?;
    rt.println("one count above 2 to the 62nd")?;
    above(rt)?;
    rt.println("all above it, and a=3; all above it, and a page of 15 bytes for r=16")?;
    let mut page = [0; 15];
    let opening = Journal::open_with(all(ABOVE), 3, 1, &[255; 40], &mut page);
    append(rt, opening, &mut [255; 40], &mut page)?;
    let opening = Journal::open_with(all(ABOVE), 4, 16, &[255; 40], &mut page);
    append(rt, opening, &mut [255; 40], &mut page)
}

fn show_all(rt: &impl Print) -> io::Result<()> {
    run(rt, "40 bytes", &mut [255; 40], &mut [0; 64], NOWHERE)?;
    run(rt, "39 bytes", &mut [255; 39], &mut [0; 64], NOWHERE)?;
    run(
        rt,
        "a page of 19 bytes",
        &mut [255; 40],
        &mut [0; 19],
        NOWHERE,
    )?;
    // Records take 20 bytes; 13 comes before 18, and 18 before the page's 5.
    run(
        rt,
        "40 bytes, of which byte 39 is written",
        &mut [255; 40],
        &mut [0; 64],
        39,
    )?;
    run(
        rt,
        "41 bytes, of which byte 40 is written",
        &mut [255; 41],
        &mut [0; 64],
        40,
    )?;
    run(
        rt,
        "39 bytes, of which byte 38 is written",
        &mut [255; 39],
        &mut [0; 64],
        38,
    )?;
    run(
        rt,
        "a page of 19 bytes, and byte 19 is written",
        &mut [255; 40],
        &mut [0; 19],
        19,
    )?;
    handed(rt)
}

fn main() {
    let _ = show_all(&Out);
}
