// A fifth theorem: how many reads a recovery makes at most, and over which region it makes as many.
#![tactic(auto)]

ghost use Rattle.costs.specs.Costs.{Theorem};

// Does nothing: its promise is the theorem, so that the crate is proved only if the theorem is.
#[tactic(auto, using(crate::proofs::Costs::reads_bounded))]
pub fn reads_are_bounded()
    ensures { Theorem }
{}
