// What all programs share: their arguments, reading what these name in pieces, writing, failing and helping.
#![tactic(auto)]

pub mod argument;
pub mod ending;
pub mod input;
pub mod output;
pub mod start;
