// The cases of one frame: checks, encode, decode.
use crate::answer::Answer;
use crate::{FILL, MOST, unit};
use decode::{Frame, decode};
use encode::encode;
use frame::lengths::{body_len, encoded_len};
use integrity::{frame_check, header_check};
use numbers::decoded::DecodedFrame;
use testing::parts::counted;
use testing::records::record;
use waymaker_core::error::Refusal;

pub(crate) fn checks(mut case: &[u8]) -> Option<()> {
    let message = counted(&mut case)?;
    let mut answer = Answer(case);
    answer.bytes(&header_check(message).to_le_bytes())?;
    answer.number(frame_check(message))?;
    answer.end()
}

fn size(answer: &mut Answer, size: Result<usize, Refusal>) -> Option<()> {
    answer.refused(size.err())?;
    answer.count(size.unwrap_or(0))
}

// The two lengths, then what encode answers and leaves in the output.
pub(crate) fn encodes(mut case: &[u8]) -> Option<()> {
    let align = usize::from(unit(&mut case)?);
    let given = record(&mut case)?;
    let free = counted(&mut case)?;
    let n = usize::from(unit(&mut case)?);
    let mut answer = Answer(case);
    let mut room = [FILL; MOST];
    let out = room.get_mut(..n)?;
    size(&mut answer, encoded_len(given, free, align))?;
    size(&mut answer, body_len(given, free, align))?;
    size(&mut answer, encode(given, free, align, out))?;
    answer.bytes(out)?;
    answer.end()
}

fn said(answer: &mut Answer, frame: Frame) -> Option<()> {
    let said = DecodedFrame::from(frame);
    answer.bytes(&[said.known])?;
    answer.read(said.record, said.free)?;
    answer.count(said.frame_len)?;
    answer.number(said.frame_crc)?;
    answer.bytes(&[said.format_version])
}

pub(crate) fn decodes(mut case: &[u8]) -> Option<()> {
    let bytes = counted(&mut case)?;
    let mut answer = Answer(case);
    let decoded = decode(bytes);
    answer.refused(decoded.err().map(Refusal::from))?;
    if let Ok(frame) = decoded {
        said(&mut answer, frame)?;
    }
    answer.end()
}
