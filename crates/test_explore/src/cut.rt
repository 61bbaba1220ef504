// A record under way, made once and torn in copies: a bit of a mask is a bit that the cut left as it was before, which
// is erased.
ghost use Rattle.std.specs.Prelude.{◌<◌};

use crate::device::Device;
use crate::item::{BEFORE, BEHIND, Item, LOST};
use crate::tally::{Came, Tally};
use journal::Journal;
use testing::parts::first;
use waymaker_core::error::Refusal;

// Bytes enough for each body that is cut, and for its record where a is 1.
pub(crate) const MOST: usize = 28;

#[derive(Clone, Copy)]
pub(crate) struct Cut {
    a: u32,
    item: Item,
    // Where its body begins, how long it is, and where the slot begins.
    at: usize,
    len: usize,
    slot: usize,
    // With the body programmed, and with the seal too.
    body: Device,
    whole: Device,
}

// Byte i of a mask of the bits that are left old, a bit after the other: they are numbers, of which there is no slice.
fn left_byte<F: Fn(usize) -> bool>(left: &F, i: usize) -> u8
    requires { (i < 28) × (F.IsAlwaysCallable left.now) }
{
    let mut byte = 0;
    for bit in 0..8 {
        byte |= u8::from(left(8 * i + bit)) << bit;
    }
    byte
}

// Byte by byte, so that each is stored once.
fn mask<F: Fn(usize) -> bool>(left: F) -> [u8; MOST]
    requires { F.IsAlwaysCallable left }
{
    let mut mask = [0; MOST];
    for (i, byte) in mask.iter_mut().enumerate() {
        *byte = left_byte(&left, i);
    }
    mask
}

// The set that comes before this one among those of the bits of a number.
fn set_below(bits: u32, of: u32) -> u32
    requires { 0 < bits }
    ensures { result < bits }
{
    (bits - 1) & of
}

// Appends a record to an erased region and, where that is wanted, loses one behind it; none where a step is not
// answered as it should be.
pub(crate) fn begun(a: u32, behind_lost: bool) -> Option<(Device, Journal)> {
    let mut device = Device::new(a);
    let opened = device.open().ok()?;
    let mut journal = device.append(opened, BEFORE)?;
    if behind_lost {
        device.stage(journal, LOST);
        journal = device.open().ok()?;
    }
    Some((device, journal))
}

impl Cut {
    // The item is appended behind those of `begun`.
    pub(crate) fn new(a: u32, behind_lost: bool, item: Item) -> Option<Self> {
        let (mut whole, journal) = begun(a, behind_lost)?;
        let staged = whole.stage(journal, item).journal;
        let body = whole;
        whole.seal(staged)?;
        let at = staged.offset as usize;
        let len = staged.body_len as usize;
        Some(Cut {
            a,
            item,
            at,
            len,
            slot: at + len,
            body,
            whole,
        })
    }

    // Tries a torn region: what recovery finds, whether it opens, and what is found after one more append.
    fn tried(&self, counts: bool, device: &mut Device) -> Came {
        let item = counts.then_some(self.item);
        if !device.finds([Some(BEFORE), item, None]) {
            return Came::Differed;
        }
        let journal = match device.open() {
            Ok(journal) => journal,
            Err(Refusal::NotAppendable) => return Came::Refused,
            Err(_) => return Came::Differed,
        };
        if device.append(journal, BEHIND).is_some()
            && device.finds([Some(BEFORE), item, Some(BEHIND)])
        {
            Came::Opened
        } else {
            Came::Differed
        }
    }

    // The slot is cut, so that these bits of it are left old. The record counts where none is.
    fn tear_slot(&self, bits: u32) -> Came {
        let mut device = self.whole;
        device.loosen(self.slot, first(&bits.to_le_bytes(), self.a as usize));
        self.tried(bits == 0, &mut device)
    }

    // The body is cut.
    pub(crate) fn tear_body(&self, mask: &[u8; MOST]) -> Came {
        let mut device = self.body;
        device.loosen(self.at, first(mask, self.len));
        self.tried(false, &mut device)
    }

    // Of the 0 bits of the seal, every set is left old once: there is no slice of sets to go over.
    pub(crate) fn slots(&self, tally: &mut Tally) {
        let zeros = self.whole.zeros(self.slot);
        let mut bits = zeros;
        tally.add(self.tear_slot(bits));
        while bits != 0 {
            bits = set_below(bits, zeros);
            tally.add(self.tear_slot(bits));
        }
    }

    // Of the bits of the body, those of each pair are left old that the rule says, of the pair and a bit.
    pub(crate) fn pairs<F: Fn(usize, usize, usize) -> bool>(&self, tally: &mut Tally, left: F)
        requires { F.IsAlwaysCallable left }
    {
        for hi in 0..8 * self.len.min(MOST) {
            for lo in 0..=hi {
                tally.add(self.tear_body(&mask(|k| left(lo, hi, k))));
            }
        }
    }

    // The body's first bytes are made to read as those that are given. The rest of it is programmed; and then, where
    // there is one, it is not.
    pub(crate) fn fronts(&self, tally: &mut Tally, front: &[u8]) {
        for behind in [0, 255] {
            if behind == 0 || front.len() < self.len {
                let mut mask = [behind; MOST];
                for (byte, given) in mask.iter_mut().zip(front) {
                    *byte = *given;
                }
                tally.add(self.tear_body(&mask));
            }
        }
    }
}

// All cuts of a family, behind a sealed record, and behind one that was never sealed.
pub(crate) fn cuts<F: Fn(&Cut, &mut Tally)>(tally: &mut Tally, a: u32, item: Item, family: F)
    requires { F.IsAlwaysCallable family }
{
    for behind_lost in [false, true] {
        match Cut::new(a, behind_lost, item) {
            Some(cut) => family(&cut, tally),
            None => tally.add(Came::Differed),
        }
    }
}
