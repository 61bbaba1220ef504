// How many answers agree, how many do not, and the number of the first that does not, counted from 0.
ghost use Rattle.std.specs.Prelude.{◌≡◌};
ghost use Rattle.testing.specs.Tally.{with_one};

use std::fmt;

#[derive(Clone, Copy, Default)]
pub struct Tally {
    pub good: u32,
    pub bad: u32,
    pub first: Option<u32>,
}

impl Tally {
    // One answer more, as far as a count goes.
    #[tactic(auto, unfolding(crate::specs::Tally::with_one))]
    pub fn add(&mut self, agrees: bool)
        ensures { self.new ≡ with_one self.old agrees }
    {
        if agrees {
            self.good = self.good.saturating_add(1);
        } else {
            self.bad = self.bad.saturating_add(1);
            self.first = self.first.or(Some(self.good));
        }
    }
}

impl fmt::Display for Tally {
    fn fmt<W: fmt::Write>(&self, f: &mut fmt::Formatter<W>) -> fmt::Result {
        write!(f, "{} agree, {} do not", self.good, self.bad)?;
        if let Some(first) = self.first {
            write!(f, ", the first is number {first}")?;
        }
        Ok(())
    }
}
