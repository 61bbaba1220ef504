// An opening and the steps of an append as numbers in structs, in the form in which C takes them.
#![tactic(auto)]

ghost use Rattle.std.specs.Prelude.{◌≡◌};
ghost use Rattle.opened.specs.Appending.{opened_by, advanced_by};

use counts::WriteAmplification;
use journal::Journal;
use numbers::refused::{NO_GEOMETRY, Refused, apart};
use progress::{Advanced, Progress};
use waymaker_core::error::Refusal;

// C has no Result: the refusal stands beside the value, here and below. The journal is all 0 where the opening is
// refused.
#[repr(C)]
#[derive(Clone, Copy)]
pub struct OpenedJournal {
    pub refused: Refused,
    pub journal: Journal,
}

// C has no enum and knows which step it made: of how far it came only what the record alone wrote is left, all 0 where
// it was not committed.
#[repr(C)]
#[derive(Clone, Copy)]
pub struct AdvancedJournal {
    pub journal: Journal,
    pub refused: Refused,
    pub written: WriteAmplification,
}

impl From<Result<Journal, Refusal>> for OpenedJournal {
    ghost from_gives = { λ opening given. given ≡ opened_by opening };

    fn from(opening: Result<Journal, Refusal>) -> OpenedJournal {
        let none = Journal::idle(NO_GEOMETRY, 0, WriteAmplification::NONE);
        let (refused, journal) = apart(opening, none);
        OpenedJournal { refused, journal }
    }
}

impl From<Advanced> for AdvancedJournal {
    ghost from_gives = { λ advanced given. given ≡ advanced_by advanced };

    fn from(advanced: Advanced) -> AdvancedJournal {
        let own = advanced.progress.map(|progress| match progress {
            Progress::Committed(written) => written,
            _ => WriteAmplification::NONE,
        });
        let (refused, written) = apart(own, WriteAmplification::NONE);
        AdvancedJournal {
            journal: advanced.journal,
            refused,
            written,
        }
    }
}
