// Something else writes into the region while the journal is ready: a bit of one byte, and after the first append a bit
// of another. An append goes where none of these is in its way, else stage refuses it and changes nothing; and every
// byte of theirs is compared after each step.
use crate::cut::begun;
use crate::device::{Device, N};
use crate::item::{BEHIND, Item};
use crate::tally::{Appends, Came};
use journal::Journal;
use waymaker_core::error::Refusal;

// Each has one bit programmed.
const WRITTEN: [u8; 8] = [0xfe, 0xfd, 0xfb, 0xf7, 0xef, 0xdf, 0xbf, 0x7f];

#[derive(Clone, Copy)]
struct Shared {
    a: u32,
    device: Device,
    journal: Journal,
    // An erased region with the same writes, and nothing of the journal's.
    theirs: Device,
}

impl Shared {
    fn write(&mut self, at: usize, written: u8) {
        self.device.write(at, written);
        self.theirs.write(at, written);
    }

    // Stage refused with 18 for a place: that of the first byte in the way, and nothing is changed.
    fn refused(&self, place: u32, first: Option<usize>, before: &Shared) -> Came {
        if first != Some(place as usize) || self.device != before.device {
            return Came::Differed;
        }
        Came::Refused
    }

    fn append(&mut self, item: Item) -> Came {
        let before = *self;
        let offset = self.journal.offset as usize;
        let first = self.theirs.first_written(offset, item.record_len(self.a));
        let staged = self.device.stage(self.journal, item);
        match staged.progress {
            Err(Refusal::NotErased { place, .. }) if staged.journal == self.journal => {
                return self.refused(place, first, &before);
            }
            _ => {}
        }
        let kept = self.device.keeps(&self.theirs);
        match self.device.seal(staged.journal) {
            Some(journal) if first.is_none() && kept && self.device.keeps(&self.theirs) => {
                self.journal = journal;
                Came::Opened
            }
            _ => Came::Differed,
        }
    }

    // Each byte from the append offset on is written, and then another item is appended.
    fn second(self, tally: &mut Appends, written: u8) {
        for at in self.journal.offset as usize..N {
            let mut shared = self;
            shared.write(at, written);
            tally.add(shared.append(BEHIND));
        }
    }

    // The same before the item itself is appended; then the second write follows, whether it was or not.
    fn first(self, tally: &mut Appends, written: u8, item: Item) {
        for at in self.journal.offset as usize..N {
            let mut shared = self;
            shared.write(at, written);
            tally.add(shared.append(item));
            shared.second(tally, written);
        }
    }
}

fn each_write(tally: &mut Appends, shared: Shared, item: Item) {
    for written in WRITTEN {
        shared.first(tally, written, item);
    }
}

fn of_item(tally: &mut Appends, a: u32, item: Item) {
    for behind_lost in [false, true] {
        match begun(a, behind_lost) {
            Some((device, journal)) => {
                let shared = Shared {
                    a,
                    device,
                    journal,
                    theirs: Device::new(a),
                };
                each_write(tally, shared, item);
            }
            None => tally.add(Came::Differed),
        }
    }
}

// All such writes, with each item.
pub(crate) fn writes(a: u32, items: &[Item]) -> Appends {
    let mut tally = Appends::default();
    for item in items {
        of_item(&mut tally, a, *item);
    }
    tally
}
