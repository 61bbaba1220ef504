// Counts and a step's answer as the program prints them.
use counts::WriteAmplification;
use progress::{Advanced, Progress};
use std::fmt;
use testing::refusals::Refused;

#[derive(Clone, Copy)]
struct Counts(WriteAmplification);

impl fmt::Display for Counts {
    fn fmt<W: fmt::Write>(&self, f: &mut fmt::Formatter<W>) -> fmt::Result {
        let counts = self.0;
        write!(f, "{} {}", counts.payload_bytes, counts.programmed_bytes)?;
        write!(f, " {} {}", counts.program_operations, counts.barriers)?;
        write!(f, " {}", counts.uncommitted_appends)
    }
}

// A step's answer, then the journal's offset and its counts.
#[derive(Clone, Copy)]
pub(crate) struct Step(pub Advanced);

impl fmt::Display for Step {
    fn fmt<W: fmt::Write>(&self, f: &mut fmt::Formatter<W>) -> fmt::Result {
        let Advanced { journal, progress } = self.0;
        match progress {
            Ok(Progress::Staged) => f.write_str("staged")?,
            Ok(Progress::Confirmed) => f.write_str("confirmed")?,
            Ok(Progress::Committed(own)) => write!(f, "committed {}", Counts(own))?,
            Err(refusal) => write!(f, "{}", Refused(refusal))?,
        }
        write!(
            f,
            "; at {}, counts {}",
            journal.offset,
            Counts(journal.written)
        )
    }
}
