// Steps as the program prints them.
use recovery::next::{Ending, Stepped};
use std::fmt;
use testing::refusals::Refused;

// No Display: a struct around the ending would have this match in its fmt, and be no plainer than a name.
fn name(ending: Ending) -> &'static str {
    match ending {
        Ending::Open => "open",
        Ending::Clean => "clean",
        Ending::Damaged => "damaged",
        Ending::Incomplete => "incomplete",
        Ending::Unsealed => "unsealed",
    }
}

// A step's answer, and the state after it.
#[derive(Clone, Copy)]
pub(crate) struct Step(pub Stepped);

impl fmt::Display for Step {
    fn fmt<W: fmt::Write>(&self, f: &mut fmt::Formatter<W>) -> fmt::Result {
        let Stepped { state, answer } = self.0;
        match answer {
            Ok(Some(found)) => {
                let sealed = found.record;
                let kind = sealed.record.kind();
                write!(f, "found at {}, kind {}", found.offset, kind.0)?;
                write!(
                    f,
                    ", payload {} {}",
                    sealed.payload.place, sealed.payload.len
                )?;
                write!(f, ", length {}", sealed.len)?;
            }
            Ok(None) => f.write_str("ended")?,
            Err(refusal) => write!(f, "{}", Refused(refusal))?,
        }
        write!(f, "; {} at {}", name(state.ending), state.offset)
    }
}
