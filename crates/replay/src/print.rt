// Writing answers to standard output. Where that fails there is nobody to tell.
use crate::line::Line;
use clipping_predictor::Estimate;
use clipping_predictor_level_buffer::level::Level;
use numbers::refusal::Refusal;
use std::fmt;

// A float, by its bits.
#[derive(Clone, Copy)]
pub struct Bits(pub f32);

impl fmt::Display for Bits {
    fn fmt<W: fmt::Write>(&self, f: &mut fmt::Formatter<W>) -> fmt::Result {
        let bits = levels::bits::to_bits(self.0);
        write!(f, "{bits:08x}")
    }
}

// Mean square, peak and clipped samples, with a text between two of them.
#[derive(Clone, Copy)]
pub struct Parts<'a>(pub Level, pub &'a str);

impl<'a> fmt::Display for Parts<'a> {
    fn fmt<W: fmt::Write>(&self, f: &mut fmt::Formatter<W>) -> fmt::Result {
        let level = self.0;
        let between = self.1;
        let average = Bits(level.average);
        let max = Bits(level.max);
        let clipped = level.clipped;
        write!(f, "{average}{between}{max}{between}{clipped}")
    }
}

pub fn show<R: Print, D: fmt::Display + Drop>(rt: &R, value: D) {
    let _ = rt.print(value);
}

// What a line asks.
pub fn asked<R: Print>(rt: &R, line: Line) {
    let _ = rt.write_all(line.bytes);
    show(rt, " => ");
}

pub fn number<R: Print>(rt: &R, x: i32) {
    show(rt, x);
}

pub fn none<R: Print>(rt: &R) {
    show(rt, "none");
}

pub fn ok<R: Print>(rt: &R) {
    show(rt, "ok");
}

pub fn refusal<R: Print>(rt: &R, cause: Refusal) {
    let _ = print!(rt; "! {}", cause.number());
}

// A refusal is written; whether there is more to say.
pub fn accepted<R: Print>(rt: &R, answer: Result<(), Refusal>) -> bool {
    match answer {
        Err(cause) => {
            refusal(rt, cause);
            false
        }
        Ok(()) => true,
    }
}

fn triple<R: Print>(rt: &R, level: Level) {
    show(rt, Parts(level, " "));
}

pub fn metrics<R: Print>(rt: &R, metrics: Result<Option<Level>, Refusal>) {
    match metrics {
        Err(cause) => refusal(rt, cause),
        Ok(None) => none(rt),
        Ok(Some(level)) => triple(rt, level),
    }
}

// A mark stands behind the answer.
fn near<R: Print>(rt: &R, near: bool) {
    if near {
        show(rt, " n");
    }
}

pub fn estimate<R: Print>(rt: &R, answer: Result<Estimate, Refusal>) {
    match answer {
        Err(cause) => refusal(rt, cause),
        Ok(estimate) => {
            match estimate.drop {
                None => none(rt),
                Some(drop) => number(rt, drop),
            }
            near(rt, estimate.near);
        }
    }
}

pub fn analysis<R: Print>(rt: &R, answer: Result<bool, Refusal>) {
    match answer {
        Err(cause) => refusal(rt, cause),
        Ok(_) => ok(rt),
    }
}

// The mark of a frame.
pub fn mark<R: Print>(rt: &R, answer: Result<bool, Refusal>) {
    match answer {
        Err(_) => near(rt, false),
        Ok(marked) => near(rt, marked),
    }
}

pub fn recommendation<R: Print>(rt: &R, answer: Option<i32>) {
    match answer {
        None => none(rt),
        Some(v) => number(rt, v),
    }
}
