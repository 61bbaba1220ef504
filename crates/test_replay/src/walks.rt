// The cases of many records: recovery and scan, step by step up to the first step that finds no record.
use crate::answer::Answer;
use crate::{FILL, MOST, unit};
use recovery::next::Recovery;
use scan::Scan;
use storage::geometry::Geometry;
use testing::parts::counted;
use waymaker_core::error::Refusal;
use waymaker_core::record::RecordRef;

// More steps than a case has records.
const STEPS: usize = MOST;

// A record found, with its offset, "ended", or a refusal; it says whether a record was found.
fn step(answer: &mut Answer, step: Result<Option<(usize, RecordRef)>, Refusal>) -> Option<bool> {
    match step {
        Ok(Some((offset, record))) => {
            answer.bytes(&[1])?;
            answer.count(offset)?;
            answer.found(record)?;
            Some(true)
        }
        Ok(None) => {
            answer.bytes(&[2])?;
            Some(false)
        }
        Err(refusal) => {
            answer.bytes(&[3])?;
            answer.refused(Some(refusal))?;
            Some(false)
        }
    }
}

// Steps up to the first that finds no record.
fn walk<F: FnMut(&mut Answer) -> Option<bool>>(mut answer: Answer, mut next: F) -> Option<()>
    requires { F.IsAlwaysCallable next }
{
    for _ in 0..STEPS {
        if !next(&mut answer)? {
            return answer.end();
        }
    }
    None
}

pub(crate) fn recovers(mut case: &[u8]) -> Option<()> {
    let program_size = u32::from(unit(&mut case)?);
    let read_size = u32::from(unit(&mut case)?);
    let n = usize::from(unit(&mut case)?);
    let region = counted(&mut case)?;
    let geometry = Geometry {
        bytes: u32::try_from(region.len()).ok()?,
        program_size,
        read_size,
    };
    let mut bytes = [FILL; MOST];
    let page = bytes.get_mut(..n)?;
    let mut state = Recovery::new(geometry);
    walk(Answer(case), |answer| {
        let stepped = state.next(region, page);
        state = stepped.state;
        let found = stepped.answer.map(|found| {
            found.map(|found| (found.offset as usize, found.record.record))
        });
        let is_found = step(answer, found)?;
        answer.number(state.offset)?;
        answer.bytes(&[state.ending as u8])?;
        answer.bytes(page)?;
        Some(is_found)
    })
}

pub(crate) fn scans(mut case: &[u8]) -> Option<()> {
    let align = usize::from(unit(&mut case)?);
    let journal = counted(&mut case)?;
    let mut state = Scan::new(align);
    walk(Answer(case), |answer| {
        let stepped = state.next(journal);
        state = stepped.state;
        let found = stepped.answer.map(|found| {
            found.map(|found| (found.offset, found.record.record))
        });
        let is_found = step(answer, found)?;
        answer.count(state.offset)?;
        Some(is_found)
    })
}
