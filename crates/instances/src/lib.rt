// Instances over small regions, no code: of demand 3 in specs/Table.antt, tested in proofs/Tried.antt, and of the
// theorems beside it in specs/Foreign.antt, specs/Counted.antt and specs/Costs.antt, computed in the proofs of those
// names.
#![tactic(auto)]
