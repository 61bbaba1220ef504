// What a place in a refusal is, and that nothing else came of it: two theorems about recovery, scan and stage.
#![tactic(auto)]

ghost use Rattle.places.specs.Before.{Theorem as NothingElseChanged};
ghost use Rattle.places.specs.First.{Theorem as PlacesAreFirst};

// Does nothing: its promise is that but for the places all answers are those of before, so that the crate is proved
// only if this is.
pub fn nothing_else_changed()
    ensures { NothingElseChanged }
{}

// Does nothing either: its promise is that each place is that of the first byte that is not erased.
pub fn places_are_first()
    ensures { PlacesAreFirst }
{}
