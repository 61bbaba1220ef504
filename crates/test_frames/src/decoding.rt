// Decode vectors. Behind the tag and the length: the refusal (1; 0 if there is none), frame_len_of's refusal (1) and
// length (4), and the bytes. Where decode does not refuse, these stand before the bytes: whether the kind is unknown
// (1), kind (1), format version (1), sequence (4; 0 where the record found has none), the kind's numbers in order
// (three of 8; 0 where there is none), the record's part (place 4, length 4; 0, 0 where there is none), the payload
// (4, 4), frame length (4), frame check (4). Past the end of a vector there are zeros.
use decode::{Frame, decode, frame_len_of};
use payload::Decoded;
use testing::parts::{array, padded};
use waymaker_core::error::DecodeError;
use waymaker_core::id::EffectSeq;
use waymaker_core::record::{NO_PART, Part, RecordKind, RecordRef};

// What a frame says, whatever its kind, in the vector's own form: a flag before the kind and three numbers after it,
// whatever they are. Crate numbers says the same in the form for C, which is no part of what is tried here.
#[derive(Clone, Copy, PartialEq, Eq)]
struct Said {
    known: bool,
    kind: RecordKind,
    format_version: u8,
    seq: EffectSeq,
    numbers: [u64; 3],
    part: Part,
    payload: Part,
    frame_len: usize,
    frame_crc: u32,
}

// The numbers of a record in their order, as the vector has them.
fn numbers_of(record: RecordRef) -> [u64; 3] {
    match record {
        RecordRef::RunStarted {
            workflow_kind,
            workflow_version,
            ..
        } => [workflow_kind.into(), workflow_version.into(), 0],
        RecordRef::EffectScheduled {
            kind,
            input_len,
            input_crc,
            ..
        } => [kind.0.into(), input_len.into(), input_crc.into()],
        RecordRef::TimerScheduled {
            clock_kind,
            deadline,
            armed_at,
            ..
        } => [clock_kind.0.into(), deadline, armed_at],
        RecordRef::VersionMarker { gate, version, .. } => [gate.0.into(), version.into(), 0],
        _ => [0; 3],
    }
}

// The part of the frame that the record's free bytes are, taken from what decode gives, without the form for C.
fn part_of(record: RecordRef) -> Part {
    match record {
        RecordRef::RunStarted { input, .. } => input,
        RecordRef::EffectCompleted { result, .. } => result,
        RecordRef::EffectFailed { error, .. } => error,
        RecordRef::RunCompleted { result } => result,
        RecordRef::RunFailed { error } => error,
        _ => NO_PART,
    }
}

impl From<Frame> for Said {
    fn from(frame: Frame) -> Self {
        let (known, kind, seq, numbers, part) = match frame.decoded {
            Decoded::Record(record) => {
                (
                    true,
                    record.kind(),
                    record.seq(),
                    numbers_of(record),
                    part_of(record),
                )
            }
            Decoded::UnknownKind(kind) => (false, kind, EffectSeq::FIRST, [0; 3], NO_PART),
        };
        Said {
            known,
            kind,
            format_version: frame.format_version,
            seq,
            numbers,
            part,
            payload: frame.payload,
            frame_len: frame.frame_len,
            frame_crc: frame.frame_crc,
        }
    }
}

// A length or a place, which has 4 bytes in the vector.
fn count(vector: &mut &[u8]) -> Option<usize> {
    Some(u32::from_le_bytes(array(vector)?) as usize)
}

fn part(vector: &mut &[u8]) -> Option<Part> {
    let place = count(vector)?;
    let len = count(vector)?;
    Some(Part { place, len })
}

fn number(vector: &mut &[u8]) -> Option<u64> {
    Some(u64::from_le_bytes(array(vector)?))
}

// What the vector wants the frame to say.
fn wanted_by(vector: &mut &[u8]) -> Option<Said> {
    let unknown = *vector.split_off_first()?;
    let kind = *vector.split_off_first()?;
    let format_version = *vector.split_off_first()?;
    let seq = u32::from_le_bytes(array(vector)?);
    let numbers = [number(vector)?, number(vector)?, number(vector)?];
    Some(Said {
        known: match unknown {
            0 => true,
            1 => false,
            _ => return None,
        },
        kind: RecordKind(kind),
        format_version,
        seq: EffectSeq(seq),
        numbers,
        part: part(vector)?,
        payload: part(vector)?,
        frame_len: count(vector)?,
        frame_crc: u32::from_le_bytes(array(vector)?),
    })
}

// This length, or the refusal with this number (0 if there is none).
pub(crate) fn len_wanted(refusal: u8, len: usize) -> Result<usize, u8> {
    if refusal == 0 { Ok(len) } else { Err(refusal) }
}

// Whether frame_len_of gives it.
pub(crate) fn frame_len_agrees(bytes: &[u8], wanted: Result<usize, u8>) -> bool {
    frame_len_of(bytes).map_err(DecodeError::number) == wanted
}

// None where the vector wants what no frame says.
pub(crate) fn decode_agrees(vector: &[u8]) -> Option<bool> {
    let ([refusal, len_refusal, l0, l1, l2, l3], rest) = padded::<6>(vector);
    let len = len_wanted(len_refusal, u32::from_le_bytes([l0, l1, l2, l3]) as usize);
    if refusal != 0 {
        return Some(agrees(rest, Err(refusal), len));
    }
    let (fields, bytes) = padded::<55>(rest);
    Some(agrees(bytes, Ok(wanted_by(&mut &fields[..])?), len))
}

fn agrees(bytes: &[u8], wanted: Result<Said, u8>, len: Result<usize, u8>) -> bool {
    let found = decode(bytes).map(Said::from).map_err(DecodeError::number);
    found == wanted && frame_len_agrees(bytes, len)
}
