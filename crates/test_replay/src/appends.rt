// The cases of an append: a list of calls on one region.
use crate::answer::Answer;
use crate::{FILL, MOST, unit};
use append::step::{commit, payload_barrier};
use journal::Journal;
use progress::Progress;
use staging::step::stage;
use testing::parts::counted;
use testing::records::record;
use waymaker_core::error::Refusal;
use waymaker_core::record::Record;

// A call of a case. The calls of test_appends and test_lents are enums of their own: they have no opening, and one enum
// for all would share three names and no match.
#[derive(Clone, Copy)]
enum Call<'a> {
    Open,
    Stage(Record, &'a [u8]),
    Barrier,
    Commit,
}

fn next_call<'a>(case: &mut &'a [u8]) -> Option<Call<'a>> {
    match *case.split_off_first()? {
        0 => Some(Call::Open),
        1 => {
            let given = record(case)?;
            Some(Call::Stage(given, counted(case)?))
        }
        2 => Some(Call::Barrier),
        3 => Some(Call::Commit),
        _ => None,
    }
}

fn progress(answer: &mut Answer, progress: Result<Progress, Refusal>) -> Option<()> {
    answer.refused(progress.err())?;
    match progress {
        Ok(Progress::Committed(own)) => answer.counts(own),
        _ => Some(()),
    }
}

// The units that a journal is opened with.
#[derive(Clone, Copy)]
struct Units {
    program_size: usize,
    read_size: usize,
}

// Makes so many calls on a region and a page. A list that goes on with no journal does not agree.
fn make(
    mut case: &[u8],
    calls: u8,
    units: Units,
    region: &mut [u8],
    page: &mut [u8],
) -> Option<()> {
    let mut behind = case;
    for _ in 0..calls {
        next_call(&mut behind)?;
    }
    let mut answer = Answer(behind);
    let mut journal = None;
    for _ in 0..calls {
        let made = match next_call(&mut case)? {
            Call::Open => {
                let opening = Journal::open(units.program_size, units.read_size, region, page);
                answer.refused(opening.err())?;
                journal = opening.ok();
                continue;
            }
            Call::Stage(record, free) => stage(journal?, record, free, region, page),
            Call::Barrier => payload_barrier(journal?, region),
            Call::Commit => commit(journal?, region),
        };
        progress(&mut answer, made.progress)?;
        journal = Some(made.journal);
    }
    left(&mut answer, journal)?;
    answer.bytes(region)?;
    answer.bytes(page)?;
    answer.end()
}

// Whether there is a journal, and where it is and what it has written.
fn left(answer: &mut Answer, journal: Option<Journal>) -> Option<()> {
    let Some(journal) = journal else {
        return answer.bytes(&[0]);
    };
    answer.bytes(&[1])?;
    answer.number(journal.offset)?;
    answer.counts(journal.written)
}

pub(crate) fn appends(mut case: &[u8]) -> Option<()> {
    let units = Units {
        program_size: usize::from(unit(&mut case)?),
        read_size: usize::from(unit(&mut case)?),
    };
    let n = usize::from(unit(&mut case)?);
    let given = counted(&mut case)?;
    let calls = *case.split_off_first()?;
    let mut bytes = [0; MOST];
    let region = bytes.get_mut(..given.len())?;
    region.copy_from_slice(given);
    let mut page = [FILL; MOST];
    make(case, calls, units, region, page.get_mut(..n)?)
}
