// How many cuts were tried, after how many of them the region opened, and how many differed from the book.
use std::fmt;

// What a try came to.
#[derive(Clone, Copy)]
pub(crate) enum Came {
    Differed,
    // As the book says; the region takes no more.
    Refused,
    // As the book says, before and after one more append.
    Opened,
}

#[derive(Clone, Copy, Default)]
pub(crate) struct Tally {
    tried: u32,
    opened: u32,
    differed: u32,
}

impl Tally {
    pub(crate) fn add(&mut self, came: Came) {
        self.tried = self.tried.saturating_add(1);
        match came {
            Came::Differed => self.differed = self.differed.saturating_add(1),
            Came::Refused => {}
            Came::Opened => self.opened = self.opened.saturating_add(1),
        }
    }
}

// The same of appends: those that stage refused, and those that were committed.
#[derive(Clone, Copy, Default)]
pub(crate) struct Appends(Tally);

impl Appends {
    pub(crate) fn add(&mut self, came: Came) {
        self.0.add(came);
    }
}

impl fmt::Display for Appends {
    fn fmt<W: fmt::Write>(&self, f: &mut fmt::Formatter<W>) -> fmt::Result {
        let Tally {
            tried,
            opened,
            differed,
        } = self.0;
        write!(f, "{tried} appends, {opened} committed")?;
        write!(f, ", {differed} differed")
    }
}

impl fmt::Display for Tally {
    fn fmt<W: fmt::Write>(&self, f: &mut fmt::Formatter<W>) -> fmt::Result {
        write!(f, "{} tried, {} opened", self.tried, self.opened)?;
        write!(f, ", {} differed", self.differed)
    }
}
