// A refusal as the test programs print it.
use std::fmt;
use waymaker_core::error::Refusal;

// Its number, the values that come with it, and its place, if any.
#[derive(Clone, Copy)]
pub struct Refused(pub Refusal);

impl fmt::Display for Refused {
    fn fmt<W: fmt::Write>(&self, f: &mut fmt::Formatter<W>) -> fmt::Result {
        let refusal = self.0;
        write!(f, "refused {} {}", refusal.number(), refusal.needed())?;
        write!(f, " {}", refusal.available())?;
        match refusal.place() {
            Some(place) => write!(f, ", place {place}"),
            None => Ok(()),
        }
    }
}
