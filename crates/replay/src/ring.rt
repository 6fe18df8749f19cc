// The lines of the ring.
ghost use Rattle.clipping_predictor_level_buffer.specs.Ring.{Good};

use crate::line::Line;
use crate::print;
use clipping_predictor_level_buffer::ClippingPredictorLevelBuffer;

// The ring as it is kept from line to line, in order.
#[derive(Clone, Copy)]
pub struct Kept {
    pub ring: ClippingPredictorLevelBuffer,
    ghost good: { Good ring },
}

// A ring of capacity 1.
pub fn fresh() -> Kept {
    let made = ClippingPredictorLevelBuffer::new(1);
    Kept { ring: made.ring }
}

impl Kept {
    // A refused making leaves the ring that was there.
    fn made<R: Print>(self, rt: &R, capacity: i32) -> Kept {
        let made = ClippingPredictorLevelBuffer::new(capacity);
        let answer = made.answer;
        if !print::accepted(rt, answer) {
            return self;
        }
        let ring = made.ring;
        print::show(rt, ring.capacity());
        Kept { ring }
    }

    // How many records there are then.
    fn counted<R: Print>(self, rt: &R) -> Kept {
        print::show(rt, self.ring.size());
        self
    }

    fn measured<R: Print>(self, rt: &R, delay: i32, items: i32) -> Kept {
        print::metrics(rt, self.ring.compute_partial_metrics(delay, items));
        self
    }

    // A refused push leaves the ring.
    fn pushed<R: Print>(self, rt: &R, line: Line) -> Kept {
        let after = self.ring.push(line.float(0), line.float(1), line.number(2));
        let answer = after.answer;
        let next = Kept { ring: after.ring };
        if !print::accepted(rt, answer) {
            return next;
        }
        next.counted(rt)
    }

    // The answer to a line, by its letter.
    pub fn answer<R: Print>(self, rt: &R, line: Line) -> Kept {
        match line.letter() {
            b'G' => self.made(rt, line.number(0)),
            b'g' => self.pushed(rt, line),
            b'z' => {
                let emptied = Kept {
                    ring: self.ring.reset(),
                };
                emptied.counted(rt)
            }
            b'm' => self.measured(rt, line.number(0), line.number(1)),
            _ => self,
        }
    }
}
