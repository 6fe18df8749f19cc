// The ring that keeps the newest levels of one channel. Ports clipping_predictor_level_buffer.rs: the `Vec` is a fixed array with a
// capacity, and `&mut self` a ring by value that is handed back.
#![tactic(auto)]

ghost use Rattle.std.specs.Prelude.{◌≡◌, ◌+◌, ◌≤◌, ◌<◌, pos, length, take, drop};
ghost use Rattle.numbers.specs.Said.{said};
ghost use Rattle.clipping_predictor_level_buffer.specs.Statistics.{larger};
ghost use Rattle.clipping_predictor_level_buffer.specs.Level.{max_samples_per_channel};
ghost use Rattle.clipping_predictor_level_buffer.specs.Ring.{max_capacity, Capacity, Good, behind, after, stored, stored_at, Emptied, Pushed};
ghost use Rattle.clipping_predictor_level_buffer.specs.Pushing.{offered, PushedOf};
ghost use Rattle.clipping_predictor_level_buffer.specs.Making.{MadeOf};
ghost use Rattle.clipping_predictor_level_buffer.specs.Metrics.{metrics_over, partial_metrics, compute_partial_metrics};

use crate::level::{Level, MAX_SAMPLES_PER_CHANNEL};
use numbers::natural::within;
use numbers::refusal::Refusal;

pub mod level;

// The most records that a ring holds.
pub const MAX_CAPACITY: usize = 64;

// The newest record is at the tail, the one before it a place behind, and so on around; `size` of them are stored. The layout is C's, which may hold any bits: so no ring is a
// collection of the library's, and that one is in order is a clause and no field's promise.
#[repr(C)]
#[derive(Clone, Copy)]
pub struct ClippingPredictorLevelBuffer {
    pub data: [Level; MAX_CAPACITY],
    pub tail: usize,
    pub size: usize,
    pub capacity: usize,
}

// What making a ring answers. A refusal has an empty ring of capacity 1 beside it, which a `Result` would not hold.
#[derive(Clone, Copy)]
pub struct Made {
    pub answer: Result<(), Refusal>,
    pub ring: ClippingPredictorLevelBuffer,
}

// What a push answers. A refusal has the very ring beside it, which a `Result` would not hold.
#[derive(Clone, Copy)]
pub struct AfterPush {
    pub ring: ClippingPredictorLevelBuffer,
    pub answer: Result<(), Refusal>,
}

// The place after the tail. As in the source a test and no `%`, which divides.
fn next(capacity: usize, tail: usize) -> usize
    requires { (capacity ≤ max_capacity) × (tail < capacity) }
    ensures { result ≡ after capacity tail }
{
    if tail + 1 < capacity { tail + 1 } else { 0 }
}

// The place that lies i places behind the tail.
fn place(capacity: usize, tail: usize, i: usize) -> usize
    requires { (capacity ≤ max_capacity) × (tail < capacity) × (i < capacity) }
    ensures { (result ≡ behind capacity tail i) × (result < capacity) }
{
    if i <= tail {
        tail - i
    } else {
        tail + capacity - i
    }
}

// The larger of two, and the first where the second is not a number. `f32::max` answers the second where the first is none, and leaves open which zero it answers.
fn larger(a: f32, b: f32) -> f32
    ensures { result ≡ larger a b }
{
    if a < b { b } else { a }
}

impl ClippingPredictorLevelBuffer {
    fn empty(capacity: usize) -> ClippingPredictorLevelBuffer
        requires { Capacity capacity }
        ensures { Emptied capacity result }
    {
        ClippingPredictorLevelBuffer {
            data: [Level::default(); MAX_CAPACITY],
            tail: 0,
            size: 0,
            capacity,
        }
    }

    // Out of line for the stack's sake.
    #[inline(never)]
    pub fn new(capacity: i32) -> Made
        ensures { MadeOf capacity result }
    {
        if capacity < 1 {
            return Made {
                answer: Ok(()),
                ring: ClippingPredictorLevelBuffer::empty(1),
            };
        }
        let Some(n) = within(1, MAX_CAPACITY, capacity) else {
            return Made {
                answer: Err(Refusal::RingRange),
                ring: ClippingPredictorLevelBuffer::empty(1),
            };
        };
        Made {
            answer: Ok(()),
            ring: ClippingPredictorLevelBuffer::empty(n),
        }
    }

    pub fn reset(self) -> ClippingPredictorLevelBuffer
        requires { Good self }
        ensures { Emptied self.capacity result }
    {
        let mut r = self;
        r.tail = 0;
        r.size = 0;
        r
    }

    pub fn size(self) -> i32
        requires { Good self }
        ensures { result ≡ pos (length (stored self)) }
    {
        // The casts of this file are proved to fit; `try_from` would have an arm that never runs.
        self.size as i32
    }

    pub fn capacity(self) -> i32
        requires { Good self }
        ensures { result ≡ pos self.capacity }
    {
        self.capacity as i32
    }

    // A record whose count is in range.
    fn pushed(self, level: Level) -> ClippingPredictorLevelBuffer
        requires { Good self × (level.clipped ≤ max_samples_per_channel) }
        ensures { Pushed self level result }
    {
        let at = next(self.capacity, self.tail);
        let size = (self.size + 1).min(self.capacity);
        let mut r = self;
        r.data[at] = level;
        r.tail = at;
        r.size = size;
        r
    }

    // `push` of a level, whose count is unsigned. Out of line for the stack's sake.
    #[inline(never)]
    pub fn push_level(self, level: Level) -> AfterPush
        requires { Good self }
        ensures { PushedOf (pos level.clipped) self level result }
    {
        if (MAX_SAMPLES_PER_CHANNEL as u32) < level.clipped {
            return AfterPush {
                ring: self,
                answer: Err(Refusal::RingRange),
            };
        }
        AfterPush {
            ring: self.pushed(level),
            answer: Ok(()),
        }
    }

    pub fn push(self, average: f32, max: f32, clipped: i32) -> AfterPush
        requires { Good self }
        ensures { PushedOf clipped self (offered average max clipped) result }
    {
        let Some(n) = within(0, MAX_SAMPLES_PER_CHANNEL, clipped) else {
            return AfterPush {
                ring: self,
                answer: Err(Refusal::RingRange),
            };
        };
        self.push_level(Level {
            average,
            max,
            clipped: n as u32,
        })
    }

    // The i-th record, counted from the newest as 0.
    pub fn stored_at(self, i: usize) -> Option<Level>
        requires { Good self }
        ensures { result ≡ stored_at (stored self) i }
    {
        (i < self.size).then(|| self.data[place(self.capacity, self.tail, i)])
    }

    // The metrics over `items` stored records, of which the newest lies `delay` places behind the tail.
    fn summed(self, delay: usize, items: usize) -> Level
        requires { Good self × (1 ≤ items) × (delay + items ≤ self.size) }
        ensures { result ≡ metrics_over (take items (drop delay (stored self))) }
    {
        let mut sum = 0.0f32;
        let mut max = 0.0f32;
        let mut clipped: u32 = 0;
        // By place: the records are no slice, since the ring goes round.
        for i in 0..items {
            let at = place(self.capacity, self.tail, delay + i);
            let level = self.data[at];
            sum += level.average;
            max = larger(max, level.max);
            clipped += level.clipped;
        }
        Level {
            average: sum / f32::from(items as u16),
            max,
            clipped,
        }
    }

    // `compute_partial_metrics` on unsigned numbers. Each number is tested against the capacity before they are added.
    pub fn partial_metrics(self, delay: usize, items: usize) -> Result<Option<Level>, Refusal>
        requires { Good self }
        ensures { said result ≡ said (partial_metrics self.capacity (stored self) delay items) }
    {
        if items < 1 || self.capacity < items || self.capacity - items < delay {
            return Err(Refusal::RingRange);
        }
        if self.size < delay + items {
            return Ok(None);
        }
        Ok(Some(self.summed(delay, items)))
    }

    pub fn compute_partial_metrics(
        self,
        delay: i32,
        num_items: i32,
    ) -> Result<Option<Level>, Refusal>
        requires { Good self }
        ensures { said result ≡ said (compute_partial_metrics self.capacity (stored self) delay num_items) }
    {
        let d = within(0, self.capacity, delay).ok_or(Refusal::RingRange)?;
        let n = within(1, self.capacity, num_items).ok_or(Refusal::RingRange)?;
        self.partial_metrics(d, n)
    }
}

// A push through a mutable reference: the ring is taken out, pushed to, and put back.
pub fn push_into(
    ring: &mut ClippingPredictorLevelBuffer,
    average: f32,
    max: f32,
    clipped: i32,
) -> Result<(), Refusal>
    requires { Good ring.old }
    ensures { PushedOf clipped ring.entry.now (offered average max clipped) (record { ring = ring.exit.now; answer = result }) }
{
    let after = ring.push(average, max, clipped);
    *ring = after.ring;
    after.answer
}
