// The listing: the bytes that it prints for what standard input holds.
#![tactic(auto)]

pub mod input;
mod run;
