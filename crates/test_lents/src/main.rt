// Makes each step of small appends in both forms, by value and over a lent journal, on two regions and two pages
// alike, and counts the steps after which journal, answer, region and page are the same; in the last run the second
// form is given another record, and so they differ.
#![tactic(auto)]

mod forms;

use counts::WriteAmplification;
use forms::{ByValue, Form, Lent};
use journal::Journal;
use progress::Progress;
use std::{fmt, io};
use storage::geometry::Geometry;
use testing::out::Out;
use waymaker_core::error::Refusal;
use waymaker_core::id::EffectSeq;
use waymaker_core::record::{Record, RecordKind};
use waymaker_core::timer::ClockKind;

// A place past the region.
const NOWHERE: usize = 64;

// A step of an append. Each is made in both forms, so that a list of closures would stand here once for each form. One
// enum with test_appends in crate testing would share three names, and neither match: it prints, and has no free bytes.
#[derive(Clone, Copy)]
enum Call {
    Stage(Record, &'static [u8]),
    Barrier,
    Commit,
}

// What an append works on.
#[derive(Clone, Copy, PartialEq, Eq)]
struct Device {
    journal: Journal,
    region: [u8; 64],
    page: [u8; 24],
}

impl Device {
    // Erased but for a byte, where the region has that place, with a ready journal of these settings.
    fn new(bytes: u32, program_size: u32, at: usize) -> Self {
        let geometry = Geometry {
            bytes,
            program_size,
            read_size: 1,
        };
        let mut region = [255; 64];
        if let Some(byte) = region.get_mut(at) {
            *byte = 0;
        }
        Device {
            journal: Journal::idle(geometry, 0, WriteAmplification::NONE),
            region,
            page: [0; 24],
        }
    }

    fn make<F: Form>(&mut self, call: Call) -> Result<Progress, Refusal> {
        let journal = self.journal;
        let step = match call {
            Call::Stage(record, free) => {
                F::stage(journal, record, free, &mut self.region, &mut self.page)
            }
            Call::Barrier => F::payload_barrier(journal, &self.region),
            Call::Commit => F::commit(journal, &mut self.region),
        };
        self.journal = step.journal;
        step.progress
    }
}

fn stage(kind: RecordKind, seq: u32, free: &'static [u8]) -> Call {
    Call::Stage(Record::new(kind, EffectSeq(seq)), free)
}

// What a ready journal refuses, among it a clock and a kind that there are not; an append of a record with steps that
// are refused while it is under way; then appends with free bytes, in order: one that the page is too small for, one
// that fits, and, with units of 4, one that the region has no room for.
fn calls(seq: u32) -> [Call; 19] {
    let no_clock = Record {
        clock_kind: ClockKind(3),
        ..Record::new(RecordKind::TIMER_SCHEDULED, EffectSeq(9))
    };
    [
        Call::Stage(no_clock, b""),
        stage(RecordKind(0), 0, b""),
        Call::Commit,
        Call::Barrier,
        stage(RecordKind::TIMER_FIRED, seq, b""),
        stage(RecordKind::TIMER_FIRED, 8, b""),
        Call::Commit,
        Call::Barrier,
        Call::Barrier,
        Call::Commit,
        stage(RecordKind::EFFECT_COMPLETED, 8, b"abcdefghi"),
        Call::Barrier,
        Call::Commit,
        stage(RecordKind::EFFECT_COMPLETED, 8, b"abc"),
        Call::Barrier,
        Call::Commit,
        stage(RecordKind::EFFECT_COMPLETED, 8, b"abc"),
        Call::Barrier,
        Call::Commit,
    ]
}

// How many steps were made, how many of them were refused, and after how many both forms were the same.
#[derive(Clone, Copy, Default)]
struct Count {
    steps: u32,
    refused: u32,
    same: u32,
}

impl fmt::Display for Count {
    fn fmt<W: fmt::Write>(&self, f: &mut fmt::Formatter<W>) -> fmt::Result {
        write!(
            f,
            "{} steps, {} refused, {} the same",
            self.steps, self.refused, self.same
        )
    }
}

// Makes the steps in both forms, the first record of the second form having this sequence.
fn run(bytes: u32, program_size: u32, seq: u32, at: usize) -> Count {
    let mut value = Device::new(bytes, program_size, at);
    let mut lent = value;
    let mut count = Count::default();
    for (call, other) in calls(7).into_iter().zip(calls(seq)) {
        let answer = value.make::<ByValue>(call);
        let same = lent.make::<Lent>(other) == answer && lent == value;
        count.steps = count.steps.saturating_add(1);
        count.refused = count.refused.saturating_add(u32::from(answer.is_err()));
        count.same = count.same.saturating_add(u32::from(same));
    }
    count
}

fn show_all(rt: &impl Print) -> io::Result<()> {
    println!(rt; "units of 4: {}", run(64, 4, 7, NOWHERE))?;
    println!(rt; "units of 1: {}", run(64, 1, 7, NOWHERE))?;
    println!(rt; "units of 3: {}", run(64, 3, 7, NOWHERE))?;
    println!(rt; "byte 30 written: {}", run(64, 4, 7, 30))?;
    println!(rt; "another device: {}", run(65, 4, 7, NOWHERE))?;
    println!(rt; "another record: {}", run(64, 4, 6, NOWHERE))
}

fn main() {
    let _ = show_all(&Out);
}
