// What the test programs share: numbers, bytes and records taken off the front of a slice, a tally of answers, and how a
// refusal is printed.
#![tactic(auto)]

pub mod out;
pub mod parts;
pub mod records;
pub mod refusals;
pub mod tally;
