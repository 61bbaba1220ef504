// Encode vectors. Behind the tag and the length: the refusal (1), the record, align (8), length of the output (2),
// answered length (4; 0 on a refusal), number of free bytes (2), the free bytes, the record's bytes (none on a refusal).
// Past the end of a vector there are zeros.
use crate::decoding::len_wanted;
use encode::encode;
use testing::parts::{array, padded};
use testing::records::record;
use waymaker_core::error::Refusal;

// How many bytes stand before the free ones.
const FIELDS: usize = 55;

// The page that the output is the start of, and what fills it before.
const PAGE: usize = 1024;

const FILL: u8 = 0xa5;

// For an output that the page does not hold: no refusal has this number.
const NO_OUTPUT: u8 = 255;

// None where the record that is wanted is longer than the page.
pub(crate) fn encode_agrees(vector: &[u8]) -> Option<bool> {
    let (fields, rest) = padded::<FIELDS>(vector);
    let mut fields = &fields[..];
    let refusal = *fields.split_off_first()?;
    let given = record(&mut fields)?;
    let align = u64::from_le_bytes(array(&mut fields)?) as usize;
    let room = u16::from_le_bytes(array(&mut fields)?);
    let len = u32::from_le_bytes(array(&mut fields)?) as usize;
    let n = u16::from_le_bytes(array(&mut fields)?);
    let (free, wanted) = rest.split_at(rest.len().min(usize::from(n)));
    let mut page = [FILL; PAGE];
    let answer = page.get_mut(..usize::from(room)).map_or(
        Err(NO_OUTPUT),
        |out| encode(given, free, align, out).map_err(Refusal::number),
    );
    let (bytes, behind) = page.split_at_checked(wanted.len())?;
    Some(
        answer == len_wanted(refusal, len)
            && len == answer.unwrap_or(0)
            && len == wanted.len()
            && bytes == wanted
            && behind.iter().all(|b| *b == FILL),
    )
}
