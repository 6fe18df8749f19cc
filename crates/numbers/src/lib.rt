// What several crates share: the natural number of an i32, a size with a sign, and the causes of a refusal.
#![tactic(auto)]

pub mod natural;
pub mod refusal;
pub mod sign;
