// Good frames, cut at every length below their own, and with every single bit turned over. Behind the tag and the
// length: the frame's length (2), frame_len_of's length (4), the frame, for each cut or bit the refusal of decode (1),
// then for each that of frame_len_of (1; 0 if there is none). Cut k leaves k bytes; bit b is bit b mod 8 of byte b / 8.
// Past the end of a vector there are zeros and empty parts.
ghost use Rattle.std.specs.Prelude.{◌<◌};

use crate::decoding::{frame_len_agrees, len_wanted};
use decode::decode;
use testing::parts::{first, padded};
use testing::tally::Tally;

// The longest frame whose bits are turned over.
const MOST: usize = 64;

// A frame, and what is answered where it is altered.
#[derive(Clone, Copy)]
struct Altered<'a> {
    frame: &'a [u8],
    len: usize,
    by_decode: &'a [u8],
    by_len: &'a [u8],
}

fn read(vector: &[u8]) -> Altered<'_> {
    let ([n0, n1, l0, l1, l2, l3], rest) = padded::<6>(vector);
    let n = usize::from(u16::from_le_bytes([n0, n1]));
    let (frame, answers) = rest.split_at(n.min(rest.len()));
    let (by_decode, by_len) = answers.split_at(answers.len() / 2);
    Altered {
        frame,
        len: u32::from_le_bytes([l0, l1, l2, l3]) as usize,
        by_decode,
        by_len,
    }
}

// Whether bytes are refused by decode with this number, and answered by frame_len_of so.
fn agrees(bytes: &[u8], by_decode: u8, by_len: Result<usize, u8>) -> bool {
    decode(bytes).is_err_and(|error| error.number() == by_decode) && frame_len_agrees(bytes, by_len)
}

// Alters the frame in each way, so many for each byte, and has each compared with what is answered there.
fn alter<F: Fn(usize, u8, Result<usize, u8>) -> bool>(
    tally: &mut Tally,
    all: Altered,
    ways: usize,
    altered_agrees: F,
)
    requires some { 0 < ways }
    requires callable { F.IsAlwaysCallable altered_agrees }
{
    if all.by_decode.len() / ways != all.frame.len() {
        return tally.add(false);
    }
    for (k, (by_decode, by_len)) in all.by_decode.iter().zip(all.by_len).enumerate() {
        tally.add(altered_agrees(k, *by_decode, len_wanted(*by_len, all.len)));
    }
}

pub(crate) fn cuts(tally: &mut Tally, vector: Option<&[u8]>) {
    let Some(all) = vector.map(read) else {
        return tally.add(false);
    };
    let frame = all.frame;
    alter(
        tally,
        all,
        1,
        |k, by_decode, by_len| agrees(first(frame, k), by_decode, by_len),
    );
}

// The frame with one bit turned over; past its end there is none.
fn flipped(frame: &[u8], bit: usize) -> [u8; MOST] {
    let (mut bytes, _) = padded::<MOST>(frame);
    if let Some(byte) = bytes.get_mut(bit / 8) {
        *byte ^= 1 << (bit % 8);
    }
    bytes
}

pub(crate) fn flips(tally: &mut Tally, vector: Option<&[u8]>) {
    let Some(all) = vector.map(read) else {
        return tally.add(false);
    };
    let frame = first(all.frame, MOST);
    alter(
        tally,
        Altered { frame, ..all },
        8,
        |bit, by_decode, by_len| {
            agrees(first(&flipped(frame, bit), frame.len()), by_decode, by_len)
        },
    );
}
