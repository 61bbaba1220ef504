// Demand 3: one theorem about every list of openings, stages, barriers, commits and power cuts.
#![tactic(auto)]

ghost use Rattle.claim.specs.Claim.{Theorem, FindsErased};

// Does nothing: its promise is the theorem, so that the crate is proved only if the theorem is.
pub fn demand_3()
    ensures { Theorem }
{}

// Does nothing either: its promise is the law that stage always finds erased bytes on demand 3's premises.
pub fn stage_finds_erased()
    ensures { FindsErased }
{}
