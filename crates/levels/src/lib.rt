// Float parts, rounding and levels: what the controller uses in place of `abs`, `round`, `log10` and `float_s16_to_dbfs`.
#![tactic(auto)]

pub mod bits;
pub mod decibels;
pub mod level;
pub mod parts;
pub mod rounding;
