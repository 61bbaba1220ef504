// Four reads from a place, the widest first, so that one that finds too little is followed by narrower ones: by the
// reader that keeps its payload, and by the cursor.
use payload_reader::Reader;
use reader::Reader as Cursor;

#[derive(Clone, Copy, PartialEq)]
pub(crate) struct Seen<'a> {
    // Each number, and where the reader stands then.
    pub eight: (Option<u64>, usize),
    pub four: (Option<u32>, usize),
    pub two: (Option<u16>, usize),
    pub one: (Option<u8>, usize),
    // What is left.
    pub rest: &'a [u8],
}

pub(crate) fn by_reader(mut r: Reader<'_>) -> Seen<'_> {
    let eight = (r.u64(), r.at);
    let four = (r.u32(), r.at);
    let two = (r.u16(), r.at);
    let one = (r.u8(), r.at);
    let rest = r.rest();
    Seen {
        eight,
        four,
        two,
        one,
        rest,
    }
}

// The number that was taken from a place, and where the cursor stands then.
fn past<T>(taken: Option<(T, Cursor)>, at: usize) -> (Option<T>, usize) {
    match taken {
        Some((number, next)) => (Some(number), next.at),
        None => (None, at),
    }
}

// From where a reader stands, over its payload.
pub(crate) fn by_cursor(start: Reader<'_>) -> Seen<'_> {
    let Reader { payload, at } = start;
    let eight = past(Cursor { at }.u64(payload), at);
    let four = past(Cursor { at: eight.1 }.u32(payload), eight.1);
    let two = past(Cursor { at: four.1 }.u16(payload), four.1);
    let one = past(Cursor { at: two.1 }.u8(payload), two.1);
    let rest = Cursor { at: one.1 }.rest(payload);
    Seen {
        eight,
        four,
        two,
        one,
        rest,
    }
}
