// Refusals, lengths, settings, records and frames as numbers in structs, in the form in which C takes them.
#![tactic(auto)]

pub mod decoded;
pub mod refused;
