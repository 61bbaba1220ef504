// A small region and a page, with what is done on them.
use crate::item::Item;
use append::step::{commit, payload_barrier};
use journal::Journal;
use progress::{Advanced, Progress};
use recovery::next::Recovery;
use staging::step::stage;
use storage::geometry::Geometry;
use waymaker_core::error::Refusal;

// The length of every region and page.
pub(crate) const N: usize = 96;

#[derive(Clone, Copy, PartialEq)]
pub(crate) struct Device {
    a: u32,
    region: [u8; N],
    page: [u8; N],
}

impl Device {
    // With an erased region.
    pub(crate) fn new(a: u32) -> Self {
        Device {
            a,
            region: [255; N],
            page: [0; N],
        }
    }

    pub(crate) fn open(&mut self) -> Result<Journal, Refusal> {
        Journal::open(self.a as usize, 1, &self.region, &mut self.page)
    }

    pub(crate) fn stage(&mut self, journal: Journal, item: Item) -> Advanced {
        let (record, free) = (item.record(), item.free());
        stage(journal, record, free, &mut self.region, &mut self.page)
    }

    // Barrier and commit; none where the record is not committed, as where it was not staged.
    pub(crate) fn seal(&mut self, journal: Journal) -> Option<Journal> {
        let confirmed = payload_barrier(journal, &self.region);
        let done = commit(confirmed.journal, &mut self.region);
        matches!(done.progress, Ok(Progress::Committed(_))).then_some(done.journal)
    }

    pub(crate) fn append(&mut self, journal: Journal, item: Item) -> Option<Journal> {
        let staged = self.stage(journal, item);
        self.seal(staged.journal)
    }

    // Whether recovery finds these items, in order, and nothing else.
    pub(crate) fn finds(&mut self, items: [Option<Item>; 3]) -> bool {
        let mut state = Recovery::new(Geometry {
            bytes: N as u32,
            program_size: self.a,
            read_size: 1,
        });
        for item in items.into_iter().flatten() {
            let step = state.next(&self.region, &mut self.page);
            match step.answer {
                Ok(Some(found)) if item.is(found, &self.page) => state = step.state,
                _ => return false,
            }
        }
        let last = state.next(&self.region, &mut self.page);
        !matches!(last.answer, Ok(Some(_)))
    }

    // Puts back the bits of the mask at a place of the region, as far as it reaches.
    pub(crate) fn loosen(&mut self, at: usize, mask: &[u8]) {
        if let Some(torn) = self.region.get_mut(at..) {
            for (byte, bits) in torn.iter_mut().zip(mask) {
                *byte |= *bits;
            }
        }
    }

    // Something else programs a byte.
    pub(crate) fn write(&mut self, at: usize, written: u8) {
        if let Some(byte) = self.region.get_mut(at) {
            *byte &= written;
        }
    }

    // The first of so many bytes at a place that is not erased.
    pub(crate) fn first_written(&self, at: usize, len: usize) -> Option<usize> {
        for (i, byte) in self.region.iter().enumerate() {
            if at <= i && i - at < len && *byte != 255 {
                return Some(i);
            }
        }
        None
    }

    // Whether every byte that is not erased in the other is the same here.
    pub(crate) fn keeps(&self, other: &Device) -> bool {
        let mut both = self.region.iter().zip(&other.region);
        both.all(|(byte, theirs)| *theirs == 255 || byte == theirs)
    }

    // The bits that are 0 of the slot at a place, as a number whose bytes are a mask.
    pub(crate) fn zeros(&self, slot: usize) -> u32 {
        let mut bytes = [255; 4];
        let slot = self.region.iter().skip(slot).take(self.a as usize);
        for (byte, sealed) in bytes.iter_mut().zip(slot) {
            *byte = *sealed;
        }
        !u32::from_le_bytes(bytes)
    }
}
