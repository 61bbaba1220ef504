// A record as the vectors give it: kind 1, sequence 4, workflow kind 2, workflow version 2, activity 2, input length 2,
// input check 4, clock kind 1, deadline 8, armed at 8, gate 2, version 2; numbers are little-endian.
ghost use Rattle.std.specs.Prelude.{◌≡◌, ◌<◌, ◌≤◌, ◌+◌, MatchOption, length, take, drop};
ghost use Rattle.testing.specs.Records.{record_in};

use crate::parts::array;
use waymaker_core::activity::ActivityKind;
use waymaker_core::id::EffectSeq;
use waymaker_core::record::{Record, RecordKind};
use waymaker_core::timer::ClockKind;
use waymaker_core::version::GateId;

// A record's bytes from a place on, which moves past them. Taken off the front of a slice instead, as parts does, they
// were tried: the check's search gave up from the sixth number on.
fn next<const N: usize>(bytes: &[u8; 38], at: &mut usize) -> [u8; N]
    requires { at.old + N ≤ 38 }
    ensures { (result ≡ take N (drop at.old bytes.now)) × (at.new ≡ at.old + N) }
{
    let front = bytes[*at..].first_chunk().unwrap();
    *at += N;
    *front
}

// Takes a record off the front. Where fewer bytes are left nothing is taken.
pub fn record(left: &mut &[u8]) -> Option<Record>
    ensures { MatchOption result ((length left.old.now < 38) × (left.new.now ≡ left.old.now))
        (λ r. (r ≡ record_in (take 38 left.old.now)) × (left.new.now ≡ drop 38 left.old.now)) }
{
    let bytes = array(left)?;
    let mut at = 0;
    Some(Record {
        kind: RecordKind(u8::from_le_bytes(next(&bytes, &mut at))),
        seq: EffectSeq(u32::from_le_bytes(next(&bytes, &mut at))),
        workflow_kind: u16::from_le_bytes(next(&bytes, &mut at)),
        workflow_version: u16::from_le_bytes(next(&bytes, &mut at)),
        activity: ActivityKind(u16::from_le_bytes(next(&bytes, &mut at))),
        input_len: u16::from_le_bytes(next(&bytes, &mut at)),
        input_crc: u32::from_le_bytes(next(&bytes, &mut at)),
        clock_kind: ClockKind(u8::from_le_bytes(next(&bytes, &mut at))),
        deadline: u64::from_le_bytes(next(&bytes, &mut at)),
        armed_at: u64::from_le_bytes(next(&bytes, &mut at)),
        gate: GateId(u16::from_le_bytes(next(&bytes, &mut at))),
        version: u16::from_le_bytes(next(&bytes, &mut at)),
    })
}
