// What the records of a try are.
use recovery::next::{Found, payload};
use testing::parts::first;
use waymaker_core::id::EffectSeq;
use waymaker_core::record::{Record, RecordKind};

// The payloads are the first bytes of these; 0 and 1 stand at every place of a byte.
static PAYLOAD: [u8; 8] = [0x5a, 0x0f, 0xc3, 0x01, 0x80, 0x3c, 0xff, 0x00];

static ZEROS: [u8; 8] = [0; 8];

// A record of a kind whose payload is its free bytes, or of kind 2, whose payload is eight bytes of numbers, all 0.
#[derive(Clone, Copy)]
pub(crate) struct Item {
    pub kind: RecordKind,
    pub seq: u32,
    pub len: usize,
}

// The record before the cut one.
pub(crate) const BEFORE: Item = Item {
    kind: RecordKind::EFFECT_COMPLETED,
    seq: 5,
    len: 2,
};

// The one appended behind it.
pub(crate) const BEHIND: Item = Item {
    kind: RecordKind::EFFECT_FAILED,
    seq: 9,
    len: 1,
};

// A record that is staged and never sealed, so that the cut one stands behind a record that is skipped.
pub(crate) const LOST: Item = Item {
    kind: RecordKind::TIMER_FIRED,
    seq: 8,
    len: 0,
};

impl Item {
    pub(crate) fn record(self) -> Record {
        Record::new(self.kind, EffectSeq(self.seq))
    }

    // One of eight bytes is all 0, as kind 2's is.
    fn payload(self) -> &'static [u8] {
        if self.len == 8 {
            return &ZEROS;
        }
        first(&PAYLOAD, self.len)
    }

    pub(crate) fn free(self) -> &'static [u8] {
        if self.kind == RecordKind::EFFECT_SCHEDULED {
            return &[];
        }
        self.payload()
    }

    // The length of its record.
    pub(crate) fn record_len(self, a: u32) -> usize {
        let unit = (a as usize).max(1);
        (16 + self.len.min(PAYLOAD.len())).next_multiple_of(unit) + unit
    }

    // Whether this is what was found through the page.
    pub(crate) fn is(self, found: Found, page: &[u8]) -> bool {
        let sealed = found.record;
        let part = sealed.payload;
        sealed.record.kind() == self.kind
            && sealed.record.seq() == EffectSeq(self.seq)
            && payload(page, part.place, part.len) == self.payload()
    }
}
