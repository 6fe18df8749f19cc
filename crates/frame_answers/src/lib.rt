// What frame lines are answered: one line with a controller, and a stream of them that comes in pieces.
#![tactic(auto)]

pub mod answers;
pub mod stream;
