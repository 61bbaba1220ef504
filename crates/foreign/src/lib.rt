// A second theorem beside demand 3: the steps of an append change no byte that something else has written into the
// region.
#![tactic(auto)]

ghost use Rattle.foreign.specs.Foreign.{Theorem};

// Does nothing: its promise is the theorem, so that the crate is proved only if the theorem is.
pub fn foreign_bytes_stay()
    ensures { Theorem }
{}
