// The records of the example images.
use waymaker_core::activity::ActivityKind;
use waymaker_core::id::EffectSeq;
use waymaker_core::record::{Record, RecordKind};
use waymaker_core::timer::ClockKind;
use waymaker_core::version::GateId;

pub(crate) fn started(kind: u16, version: u16) -> Record {
    Record {
        workflow_kind: kind,
        workflow_version: version,
        ..Record::new(RecordKind::RUN_STARTED, EffectSeq::FIRST)
    }
}

pub(crate) fn scheduled(seq: u32, activity: u16, input_len: u16) -> Record {
    Record {
        activity: ActivityKind(activity),
        input_len,
        ..Record::new(RecordKind::EFFECT_SCHEDULED, EffectSeq(seq))
    }
}

// A record of nothing but free bytes: an effect's or the run's outcome.
pub(crate) fn outcome(kind: RecordKind, seq: u32) -> Record {
    Record::new(kind, EffectSeq(seq))
}

pub(crate) fn timer(seq: u32, deadline: u64) -> Record {
    Record {
        clock_kind: ClockKind::AFTER_BOOT,
        deadline,
        ..Record::new(RecordKind::TIMER_SCHEDULED, EffectSeq(seq))
    }
}

pub(crate) fn fired(seq: u32) -> Record {
    Record::new(RecordKind::TIMER_FIRED, EffectSeq(seq))
}

pub(crate) fn gate(seq: u32, gate: u16) -> Record {
    Record {
        gate: GateId(gate),
        version: 1,
        ..Record::new(RecordKind::VERSION_MARKER, EffectSeq(seq))
    }
}
