// Records and frames as numbers.
ghost use Rattle.std.specs.Prelude.{◌≡◌};
ghost use Rattle.numbers.specs.Reading.{read_as, unknown_as, frame_by, decoded_by};

use crate::refused::{NONE, Refused};
use decode::Frame;
use payload::Decoded;
use waymaker_core::error::{DecodeError, Refusal};
use waymaker_core::record::{NO_PART, NO_RECORD, Part, Record, RecordKind, RecordRef};

// A record as it was found, in the form in which it is given, and its free bytes as a part of what it was read from.
// Numbers that its kind lacks are 0.
#[derive(Clone, Copy)]
pub struct ReadRecord {
    pub record: Record,
    pub free: Part,
}

// What decode answers. Where known is 0 the kind is not known, and of the record only the kind says something: C has
// this flag and plain numbers in place of the enum.
#[repr(C)]
#[derive(Clone, Copy)]
pub struct DecodedFrame {
    pub refused: Refused,
    pub known: u8,
    pub format_version: u8,
    pub record: Record,
    pub free: Part,
    pub payload: Part,
    pub frame_len: usize,
    pub frame_crc: u32,
}

// What stands where there is no frame.
const NO_FRAME: DecodedFrame = DecodedFrame {
    refused: NONE,
    known: 0,
    format_version: 0,
    record: NO_RECORD,
    free: NO_PART,
    payload: NO_PART,
    frame_len: 0,
    frame_crc: 0,
};

impl From<RecordRef> for ReadRecord {
    ghost from_gives = { λ found read. read ≡ read_as found };

    #[tactic(auto, unfolding(waymaker_core::specs::Kinds::plain_record))]
    fn from(found: RecordRef) -> ReadRecord {
        let plain = Record::new(found.kind(), found.seq());
        match found {
            RecordRef::RunStarted {
                workflow_kind,
                workflow_version,
                input,
            } => ReadRecord {
                record: Record {
                    workflow_kind,
                    workflow_version,
                    ..plain
                },
                free: input,
            },
            RecordRef::EffectScheduled {
                kind,
                input_len,
                input_crc,
                ..
            } => ReadRecord {
                record: Record {
                    activity: kind,
                    input_len,
                    input_crc,
                    ..plain
                },
                free: NO_PART,
            },
            RecordRef::TimerScheduled {
                clock_kind,
                deadline,
                armed_at,
                ..
            } => ReadRecord {
                record: Record {
                    clock_kind,
                    deadline,
                    armed_at,
                    ..plain
                },
                free: NO_PART,
            },
            RecordRef::VersionMarker { gate, version, .. } => ReadRecord {
                record: Record {
                    gate,
                    version,
                    ..plain
                },
                free: NO_PART,
            },
            RecordRef::TimerFired { .. } => ReadRecord {
                record: plain,
                free: NO_PART,
            },
            RecordRef::EffectCompleted { result: free, .. }
            | RecordRef::EffectFailed { error: free, .. }
            | RecordRef::RunCompleted { result: free }
            | RecordRef::RunFailed { error: free } => ReadRecord {
                record: plain,
                free,
            },
        }
    }
}

fn unknown_as(kind: RecordKind) -> ReadRecord
    ensures { result ≡ unknown_as kind }
{
    ReadRecord {
        record: Record { kind, ..NO_RECORD },
        free: NO_PART,
    }
}

impl From<Frame> for DecodedFrame {
    ghost from_gives = { λ frame given. given ≡ frame_by frame frame.decoded };

    fn from(frame: Frame) -> DecodedFrame {
        let (known, read) = match frame.decoded {
            Decoded::Record(found) => (1, ReadRecord::from(found)),
            Decoded::UnknownKind(kind) => (0, unknown_as(kind)),
        };
        DecodedFrame {
            refused: NONE,
            known,
            format_version: frame.format_version,
            record: read.record,
            free: read.free,
            payload: frame.payload,
            frame_len: frame.frame_len,
            frame_crc: frame.frame_crc,
        }
    }
}

impl From<Result<Frame, DecodeError>> for DecodedFrame {
    ghost from_gives = { λ decoding given. given ≡ decoded_by decoding };

    fn from(decoding: Result<Frame, DecodeError>) -> DecodedFrame {
        match decoding {
            Ok(frame) => DecodedFrame::from(frame),
            Err(error) => DecodedFrame {
                refused: Refused::from(Refusal::from(error)),
                ..NO_FRAME
            },
        }
    }
}
