// The grammar of a frame line, the bytes of an answer, and the lines of a stream of bytes, as a library on slices.
#![tactic(auto)]

pub mod answer;
mod digits;
pub mod line;
pub mod lines;
pub mod respelling;
pub mod search;
pub mod spelling;
