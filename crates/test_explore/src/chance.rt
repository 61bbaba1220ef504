// The body is cut so that its header, or its whole frame, reads as that of another record, checks included. Few records
// can be cut so; they are searched for from sequence 0 up.
use crate::cut::{MOST, cuts};
use crate::item::Item;
use crate::tally::Tally;
use encode::encode;
use testing::parts::first;
use waymaker_core::record::RecordKind;

// How many sequences are tried.
const BUDGET: u32 = 20000;

// What the record is, and what its first n bytes may read as. The sequence of the one is 0 here, where those that are
// tried stand, and of the other the bits that it has more.
#[derive(Clone, Copy)]
struct Pair {
    item: Item,
    front: Item,
    n: usize,
}

impl Pair {
    // Both have payloads of this length.
    fn new(kind: RecordKind, as_kind: RecordKind, len: usize, bits: u32, n: usize) -> Self {
        let item = Item { kind, seq: 0, len };
        let front = Item {
            kind: as_kind,
            seq: bits,
            len,
        };
        Pair { item, front, n }
    }
}

// Header checks that agree: one bit of the sequence more, another kind (of 4 and of 2, which is not skipped), and a
// payload's length that reads as 4 and not 0.
pub(crate) fn headers(a: u32) -> Tally {
    let empty = Item {
        kind: RecordKind::EFFECT_COMPLETED,
        seq: 0,
        len: 0,
    };
    let longer = Pair {
        item: empty,
        front: Item { len: 4, ..empty },
        n: 12,
    };
    search(
        a,
        &[
            Pair::new(
                RecordKind::TIMER_FIRED,
                RecordKind::TIMER_FIRED,
                0,
                0x100000,
                12,
            ),
            Pair::new(RecordKind::EFFECT_FAILED, RecordKind::TIMER_FIRED, 0, 0, 12),
            Pair::new(
                RecordKind::EFFECT_SCHEDULED,
                RecordKind::EFFECT_COMPLETED,
                8,
                0,
                12,
            ),
            longer,
        ],
    )
}

// Frame checks that agree too. Of the bits above the sequences tried, those are chosen with which the fewest bits of
// the two checks differ: 9, 10 and 9 of 48.
pub(crate) fn frames(a: u32) -> Tally {
    search(
        a,
        &[
            Pair::new(
                RecordKind::TIMER_FIRED,
                RecordKind::TIMER_FIRED,
                0,
                0x70950000,
                16,
            ),
            Pair::new(
                RecordKind::EFFECT_FAILED,
                RecordKind::TIMER_FIRED,
                0,
                0xc52d0000,
                16,
            ),
            Pair::new(
                RecordKind::EFFECT_SCHEDULED,
                RecordKind::EFFECT_COMPLETED,
                8,
                0x70ed0000,
                24,
            ),
        ],
    )
}

fn laid(item: Item) -> [u8; MOST] {
    let mut out = [255; MOST];
    // None of the items here is refused; one that were would stay erased.
    let _ = encode(item.record(), item.free(), 1, &mut out);
    out
}

// Whether these bytes have every 1 bit of those that are cut, so that a cut of those may read as these.
fn covers(front: &[u8], cut: &[u8]) -> bool {
    front.iter().zip(cut).all(|(y, x)| *x & *y == *x)
}

fn one_seq(tally: &mut Tally, a: u32, pair: Pair, seq: u32) {
    let item = Item { seq, ..pair.item };
    let front = laid(Item {
        seq: seq | pair.front.seq,
        ..pair.front
    });
    let front = first(&front, pair.n);
    if covers(front, &laid(item)) {
        cuts(tally, a, item, |cut, tally| cut.fronts(tally, front));
    }
}

// All cuts of this kind of the records of these pairs.
fn search(a: u32, pairs: &[Pair]) -> Tally {
    let mut tally = Tally::default();
    for pair in pairs {
        for seq in 0..BUDGET {
            one_seq(&mut tally, a, *pair, seq);
        }
    }
    tally
}
