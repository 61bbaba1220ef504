// Recovery, scan and find as numbers: their states in both directions, and their answers.
ghost use Rattle.std.specs.Prelude.{◌≡◌, MatchOption, MatchResult};
ghost use Rattle.answers.specs.Stepping.{found_as, no_found, ending_of, recovery_of, state_of, state_after};
ghost use Rattle.answers.specs.Stepping.{recovery_step_by, scan_of, scan_state_of, scan_state_after, scan_step_by};
ghost use Rattle.answers.specs.Stepping.{finding_by};
ghost use Rattle.numbers.specs.Refusing.{not_refused, refused_by};

use numbers::decoded::ReadRecord;
use numbers::refused::{NONE, Refused, apart};
use place::Sealed;
use recovery::next::{Ending, Found, Recovery, Stepped};
use scan::{Scan, ScanStepped};
use storage::geometry::Geometry;
use waymaker_core::error::Refusal;
use waymaker_core::record::{NO_PART, NO_RECORD, Part, Record};

// A sealed record: its offset, its length with padding and slot, and its parts, counted from its own start.
#[repr(C)]
#[derive(Clone, Copy)]
pub struct FoundRecord {
    pub offset: usize,
    pub len: usize,
    pub record: Record,
    pub free: Part,
    pub payload: Part,
}

// A recovery, its ending as a number: 0 open, 1 clean, 2 damaged, 3 and all above 4 incomplete, 4 unsealed.
#[repr(C)]
#[derive(Clone, Copy)]
pub struct RecoveryState {
    pub geometry: Geometry,
    pub offset: u32,
    // C may give any number, so that no enum stands here.
    pub ending: u8,
    pub reads: u64,
}

// A scan, which has stopped where its last number is not 0.
#[repr(C)]
#[derive(Clone, Copy)]
pub struct ScanState {
    pub align: usize,
    pub offset: usize,
    // C may give any number, so that no bool stands here.
    pub stopped: u8,
}

// A step that neither refuses nor finds has ended. C has a flag in place of an Option, here and below, and its calls
// have no type with arguments, so that this one and the next are two.
#[repr(C)]
#[derive(Clone, Copy)]
pub struct RecoveryStep {
    pub state: RecoveryState,
    pub refused: Refused,
    pub is_found: u8,
    pub found: FoundRecord,
}

#[repr(C)]
#[derive(Clone, Copy)]
pub struct ScanStep {
    pub state: ScanState,
    pub refused: Refused,
    pub is_found: u8,
    pub found: FoundRecord,
}

#[repr(C)]
#[derive(Clone, Copy)]
pub struct FoundAt {
    pub refused: Refused,
    pub is_found: u8,
    pub offset: u32,
}

// What stands where nothing is found. Zeros written out, here and in the constants below it stands on: a Default would
// offer values that no call gives.
const NOTHING: FoundRecord = FoundRecord {
    offset: 0,
    len: 0,
    record: NO_RECORD,
    free: NO_PART,
    payload: NO_PART,
};

fn found_as(offset: usize, sealed: Sealed) -> FoundRecord
    ensures { result ≡ found_as offset sealed }
{
    let read = ReadRecord::from(sealed.record);
    FoundRecord {
        offset,
        len: sealed.len,
        record: read.record,
        free: read.free,
        payload: sealed.payload,
    }
}

impl From<Found> for FoundRecord {
    ghost from_gives = { λ found given. given ≡ found_as found.offset found.«record» };

    fn from(found: Found) -> FoundRecord {
        found_as(found.offset as usize, found.record)
    }
}

// The same of a scan's, whose offset has another type.
impl From<scan::Found> for FoundRecord {
    ghost from_gives = { λ found given. given ≡ found_as found.offset found.«record» };

    fn from(found: scan::Found) -> FoundRecord {
        found_as(found.offset, found.record)
    }
}

// No From: Ending is recovery's, and the numbers are those of the form for C.
#[tactic(auto, unfolding(crate::specs::Stepping::ending_of))]
fn ending_of(number: u8) -> Ending
    ensures { result ≡ ending_of number }
{
    match number {
        0 => Ending::Open,
        1 => Ending::Clean,
        2 => Ending::Damaged,
        4 => Ending::Unsealed,
        _ => Ending::Incomplete,
    }
}

impl From<RecoveryState> for Recovery {
    ghost from_gives = { λ state recovery. recovery ≡ recovery_of state };

    fn from(state: RecoveryState) -> Recovery {
        Recovery {
            geometry: state.geometry,
            offset: state.offset,
            ending: ending_of(state.ending),
            reads: state.reads,
        }
    }
}

impl From<Recovery> for RecoveryState {
    ghost from_gives = { λ recovery state. state ≡ state_of recovery };

    fn from(recovery: Recovery) -> RecoveryState {
        RecoveryState {
            geometry: recovery.geometry,
            offset: recovery.offset,
            // Its variants are in the order of their numbers.
            ending: recovery.ending as u8,
            reads: recovery.reads,
        }
    }
}

impl From<ScanState> for Scan {
    ghost from_gives = { λ state scan. scan ≡ scan_of state };

    fn from(state: ScanState) -> Scan {
        Scan {
            align: state.align,
            offset: state.offset,
            stopped: state.stopped != 0,
        }
    }
}

impl From<Scan> for ScanState {
    ghost from_gives = { λ scan state. state ≡ scan_state_of scan };

    fn from(scan: Scan) -> ScanState {
        ScanState {
            align: scan.align,
            offset: scan.offset,
            stopped: u8::from(scan.stopped),
        }
    }
}

// What a step answers beside its state: the refusal, whether a record is found, and the record.
// The hint, and NOTHING in the arms and no argument, are for speed: a scan step took some 5 ns more without both.
#[inline(always)]
fn said<F: Into<FoundRecord>>(answer: Result<Option<F>, Refusal>) -> (Refused, u8, FoundRecord)
    ensures { MatchResult answer
        (λ found. MatchOption found (result ≡ (not_refused, 0, no_found))
        (λ x. (result.0 ≡ not_refused) × (result.1 ≡ 1) × F.converts x result.2))
        (λ e. result ≡ (refused_by e, 0, no_found)) }
{
    match answer {
        Ok(Some(found)) => (NONE, 1, found.into()),
        Ok(None) => (NONE, 0, NOTHING),
        Err(refusal) => (Refused::from(refusal), 0, NOTHING),
    }
}

// A state that has ended comes back as it was, whatever its number.
fn state_after(before: RecoveryState, after: Recovery) -> RecoveryState
    ensures { result ≡ state_after before after }
{
    if before.ending == 0 {
        return RecoveryState::from(after);
    }
    before
}

// The same of one that has stopped: other types and another field, so that one function would be no plainer.
fn scan_state_after(before: ScanState, after: Scan) -> ScanState
    ensures { result ≡ scan_state_after before after }
{
    if before.stopped == 0 {
        return ScanState::from(after);
    }
    before
}

// A step of recovery, and below one of scan.
pub fn step_by(before: RecoveryState, x: Stepped) -> RecoveryStep
    ensures { result ≡ recovery_step_by before x }
{
    let (refused, is_found, found) = said(x.answer);
    RecoveryStep {
        state: state_after(before, x.state),
        refused,
        is_found,
        found,
    }
}

pub fn scan_step_by(before: ScanState, x: ScanStepped) -> ScanStep
    ensures { result ≡ scan_step_by before x }
{
    let (refused, is_found, found) = said(x.answer);
    ScanStep {
        state: scan_state_after(before, x.state),
        refused,
        is_found,
        found,
    }
}

impl From<Result<Option<u32>, Refusal>> for FoundAt {
    ghost from_gives = { λ finding given. given ≡ finding_by finding };

    fn from(finding: Result<Option<u32>, Refusal>) -> FoundAt {
        let (refused, found) = apart(finding, None);
        FoundAt {
            refused,
            is_found: u8::from(found.is_some()),
            offset: found.unwrap_or(0),
        }
    }
}
