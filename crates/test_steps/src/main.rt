// Runs recovery over small regions and prints each step: a region of three records; the same with the second never
// sealed, and with one bit of its slot programmed; a page that is too small; and the bytes of document 01 that it does
// not star.
// Then what find and open answer there, and what a payload that is too long gives.
#![tactic(auto)]

mod shown;

use encode::encode;
use find::find;
use frame::lengths::encoded_len_for;
use journal::Journal;
use recovery::next::Recovery;
use shown::Step;
use std::io;
use storage::geometry::Geometry;
use testing::out::Out;
use testing::refusals::Refused;
use waymaker_core::id::EffectSeq;
use waymaker_core::record::{Record, RecordKind};

// A region, the geometry that it is held to have, and the page through which it is looked at.
#[derive(Clone, Copy)]
struct Device<const N: usize, const P: usize> {
    geometry: Geometry,
    region: [u8; N],
    page: [u8; P],
}

impl<const N: usize, const P: usize> Device<N, P> {
    // An erased region of so many bytes, in units of 4 and 1.
    fn new(bytes: u32) -> Self {
        let geometry = Geometry {
            bytes,
            program_size: 4,
            read_size: 1,
        };
        Device {
            geometry,
            region: [255; N],
            page: [0; P],
        }
    }

    // Takes four steps from offset 0 and shows each.
    fn steps(&mut self, rt: &impl Print) -> io::Result<()> {
        let mut state = Recovery::new(self.geometry);
        for _ in 0..4 {
            let step = state.next(&self.region, &mut self.page);
            rt.println(Step(step))?;
            state = step.state;
        }
        Ok(())
    }

    // The units as the calls take them.
    fn units(&self) -> (usize, usize) {
        let Geometry {
            program_size,
            read_size,
            ..
        } = self.geometry;
        (program_size as usize, read_size as usize)
    }

    // Three sequences, of which the last is that of the records of a run.
    fn finds(&mut self, rt: &impl Print) -> io::Result<()> {
        let (a, r) = self.units();
        for seq in [7, 8, 0] {
            match find(EffectSeq(seq), a, r, &self.region, &mut self.page) {
                Ok(Some(offset)) => println!(rt; "find {seq}: at {offset}")?,
                Ok(None) => println!(rt; "find {seq}: nowhere")?,
                Err(refusal) => println!(rt; "find {seq}: {}", Refused(refusal))?,
            }
        }
        Ok(())
    }

    fn opens(&mut self, rt: &impl Print) -> io::Result<()> {
        let (a, r) = self.units();
        match Journal::open(a, r, &self.region, &mut self.page) {
            Ok(journal) => println!(rt; "open: ready at {}", journal.offset),
            Err(refusal) => println!(rt; "open: {}", Refused(refusal)),
        }
    }

    fn show(&mut self, rt: &impl Print) -> io::Result<()> {
        self.steps(rt)?;
        self.finds(rt)?;
        self.opens(rt)
    }
}

// A record at a place of the region, as in the program that makes the images, which shares no crate of helpers with the
// tests. One that encode refused would not be found.
fn put(region: &mut [u8; 96], at: usize, record: Record, free: &[u8]) {
    if let Some(out) = region.get_mut(at..) {
        let _ = encode(record, free, 4, out);
    }
}

// Three records of 20, 24 and 20 bytes; the second one's slot is at 40.
fn fill(region: &mut [u8; 96]) {
    let fired = Record::new(RecordKind::TIMER_FIRED, EffectSeq(7));
    let completed = Record::new(RecordKind::EFFECT_COMPLETED, EffectSeq(8));
    let run_completed = Record::new(RecordKind::RUN_COMPLETED, EffectSeq(0));
    put(region, 0, fired, b"");
    put(region, 20, completed, b"abc");
    put(region, 44, run_completed, b"");
}

// The four bytes of the second slot, of which one is given.
fn set_slot(region: &mut [u8; 96], first: u8) {
    region[40..44].copy_from_slice(&[first, 255, 255, 255]);
}

fn three(rt: &impl Print) -> io::Result<()> {
    let mut device = Device::<96, 96>::new(96);
    fill(&mut device.region);
    rt.println("three records")?;
    device.show(rt)?;
    set_slot(&mut device.region, 255);
    rt.println("the second never sealed")?;
    device.show(rt)?;
    set_slot(&mut device.region, 127);
    rt.println("one bit of its slot programmed")?;
    device.show(rt)
}

fn limits(rt: &impl Print) -> io::Result<()> {
    let mut device = Device::<40, 15>::new(40);
    device.geometry.read_size = 16;
    rt.println("r=16, N=40, page 15")?;
    device.show(rt)?;
    device.geometry.read_size = 1;
    device.geometry.program_size = 3;
    rt.println("a=3")?;
    device.show(rt)?;
    rt.println("N=41 held, 40 given")?;
    Device::<40, 15>::new(41).steps(rt)
}

fn length(rt: &impl Print, payload_bytes: usize) -> io::Result<()> {
    match encoded_len_for(payload_bytes, 256) {
        Ok(n) => println!(rt; "P = {payload_bytes}: length {n}"),
        Err(refusal) => println!(rt; "P = {payload_bytes}: {}", Refused(refusal)),
    }
}

fn show_all(rt: &impl Print) -> io::Result<()> {
    three(rt)?;
    limits(rt)?;
    length(rt, 65535)?;
    length(rt, 65536)
}

fn main() {
    let _ = show_all(&Out);
}
