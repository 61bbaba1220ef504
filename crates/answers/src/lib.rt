// The answers of recovery, scan and find as numbers in structs, in the form in which C takes them.
#![tactic(auto)]

pub mod stepped;
