// The level of one channel's frame: its mean square, its peak, and how many of its samples are clipped. Ports what `analyze` of clipping_predictor.rs works out for each channel; the
// count, which the source has no place for, is taken in the same pass.
ghost use Rattle.std.specs.Prelude.{◌≡◌, ℕ, ◌+◌, ◌≤◌, List, Float, length, drop};
ghost use Rattle.numbers.specs.Said.{said};
ghost use Rattle.clipping_predictor_level_buffer.specs.Level.{max_samples_per_channel, is_frame_size, frame_record, measure_of, two_records, measure_two_of};
ghost use Rattle.clipping_predictor_level_buffer.specs.Clipped.{count_of};
ghost use Rattle.clipping_predictor_level_buffer.specs.Running.{level_from, magnitude_from, with_sample, largest_part, with_four, is_below, counting_four, four_taken, running_of, Reached, Passed};

use numbers::refusal::Refusal;

// The most samples that a frame has in one channel.
pub const MAX_SAMPLES_PER_CHANNEL: usize = 480;

// Frame-level statistics: the mean square, the largest magnitude, and how many samples are clipped. Metrics over several frames have the same
// shape: a mean, the largest, and a total. The default is silence.
#[repr(C)]
#[derive(Clone, Copy, Default)]
pub struct Level {
    pub average: f32,
    pub max: f32,
    pub clipped: u32,
}

// How far a measurement has come: the sum of the squares, the peak and the clipped samples.
#[derive(Clone, Copy)]
struct Running {
    sum: f32,
    peak: f32,
    clipped: u32,
}

// A peak in four parts, each that of every fourth sample.
#[derive(Clone, Copy, Default)]
struct Peaks {
    w: f32,
    x: f32,
    y: f32,
    z: f32,
}

// A measurement by fours: the sum of the squares, the peak in four parts, and the clipped samples.
#[derive(Clone, Copy, Default)]
struct Taking {
    sum: f32,
    peaks: Peaks,
    clipped: u32,
}

// 1 for a sample at the end of the 16-bit scale or past it, else 0. A not-a-number is neither.
pub fn count_of(sample: f32) -> u32
    ensures { result ≡ count_of sample }
{
    u32::from(sample >= 32767.0 || sample <= -32768.0)
}

// A sample without its sign, and 0 for a not-a-number.
fn magnitude(sample: f32) -> f32
    ensures { result ≡ magnitude_from sample }
{
    f32::from_bits(levels::parts::magnitude_bits(sample))
}

// A peak with one sample more. Since a not-a-number counts as 0, the larger is a number's, for which the machine has one instruction.
fn with_sample(peak: f32, sample: f32) -> f32
    ensures { result ≡ with_sample peak sample }
{
    crate::larger(peak, magnitude(sample))
}

impl Peaks {
    // One turn's four samples, by the names of the pattern that takes them off the frame.
    fn with(self, w: f32, x: f32, y: f32, z: f32) -> Peaks
        ensures { result ≡ with_four self w x y z }
    {
        Peaks {
            w: with_sample(self.w, w),
            x: with_sample(self.x, x),
            y: with_sample(self.y, y),
            z: with_sample(self.z, z),
        }
    }

    fn largest(self) -> f32
        ensures { result ≡ largest_part self }
    {
        crate::larger(crate::larger(self.w, self.x), crate::larger(self.y, self.z))
    }
}

// Whether a sample surely is not clipped, by its magnitude.
fn is_below(sample: f32) -> bool
    ensures { result ≡ is_below sample }
{
    magnitude(sample) < 32767.0
}

// A count with four samples more. Nearly always none of them is clipped, which their magnitudes, there for the peak, tell all at once.
fn counted(clipped: u32, w: f32, x: f32, y: f32, z: f32) -> u32
    requires { clipped ≤ max_samples_per_channel }
    ensures { result ≡ counting_four clipped w x y z }
{
    if is_below(w) && is_below(x) && is_below(y) && is_below(z) {
        return clipped;
    }
    clipped + count_of(w) + count_of(x) + count_of(y) + count_of(z)
}

impl Taking {
    // Four samples more. The sum is one chain of rounded additions, and nothing beside it may take longer: so the peak is kept in four
    // parts, which the machine compares at once.
    fn with(self, w: f32, x: f32, y: f32, z: f32) -> Taking
        requires { self.clipped ≤ max_samples_per_channel }
        ensures { result ≡ four_taken self w x y z }
    {
        Taking {
            sum: self.sum + w * w + x * x + y * y + z * z,
            peaks: self.peaks.with(w, x, y, z),
            clipped: counted(self.clipped, w, x, y, z),
        }
    }

    // The parts of the peak as one.
    fn running(self) -> Running
        ensures { result ≡ running_of self }
    {
        Running {
            sum: self.sum,
            peak: self.peaks.largest(),
            clipped: self.clipped,
        }
    }
}

// The samples that are left, one a turn.
fn one_by_one(from: Running, rest: &[f32]) -> Running
    requires { from.clipped + length rest.now ≤ max_samples_per_channel }
    ensures { (samples : List Float) (at : ℕ) → at ≤ length samples → rest.now ≡ drop at samples → Reached samples at from → Passed samples result }
{
    let mut sum = from.sum;
    let mut peak = from.peak;
    let mut clipped = from.clipped;
    for x in rest {
        sum += *x * *x;
        peak = with_sample(peak, *x);
        clipped += count_of(*x);
    }
    Running { sum, peak, clipped }
}

// A level, from a measurement and the count of its samples.
fn level_from(all: Running, count: u16) -> Level
    ensures { result ≡ level_from all count }
{
    Level {
        average: all.sum / f32::from(count),
        max: all.peak,
        clipped: all.clipped,
    }
}

// The record of a frame whose samples are few enough to be counted in a u16: by fours, as far as they go, and then one by one.
fn frame_record(samples: &[f32]) -> Level
    requires { length samples.now ≤ max_samples_per_channel }
    ensures { result ≡ frame_record samples.now }
{
    let mut t = Taking::default();
    let mut rest = samples;
    while let [w, x, y, z, tail @ ..] = rest {
        t = t.with(*w, *x, *y, *z);
        rest = tail;
    }
    // The casts of this file are proved to fit; `try_from` would have an arm that never runs.
    level_from(one_by_one(t.running(), rest), samples.len() as u16)
}

// The records of two channels of one frame at once: neither chain of additions waits for the other. One function of the count of channels is not covered: its
// parameter would be an array of that many references.
fn two_records(first: &[f32], second: &[f32]) -> (Level, Level)
    requires { (length first.now ≡ length second.now) × (length first.now ≤ max_samples_per_channel) }
    ensures { result ≡ two_records first.now second.now }
{
    let mut s = Taking::default();
    let mut t = Taking::default();
    let mut rest = first;
    let mut others = second;
    while let [w, x, y, z, tail @ ..] = rest
        && let [a, b, c, d, end @ ..] = others
    {
        s = s.with(*w, *x, *y, *z);
        t = t.with(*a, *b, *c, *d);
        rest = tail;
        others = end;
    }
    let count = first.len() as u16;
    (
        level_from(one_by_one(s.running(), rest), count),
        level_from(one_by_one(t.running(), others), count),
    )
}

// Whether a channel may have so many samples.
pub fn is_frame_size(samples: usize) -> bool
    ensures { result ≡ is_frame_size samples }
{
    (1..=MAX_SAMPLES_PER_CHANNEL).contains(&samples)
}

// The level of a channel, or why there is none.
pub fn measure(samples: &[f32]) -> Result<Level, Refusal>
    ensures { said result ≡ said (measure_of samples.now) }
{
    if !is_frame_size(samples.len()) {
        return Err(Refusal::FrameSize);
    }
    Ok(frame_record(samples))
}

// Those of two channels of one frame, which has as many samples of each.
pub fn measure_two(first: &[f32], second: &[f32]) -> Result<(Level, Level), Refusal>
    ensures { said result ≡ said (measure_two_of first.now second.now) }
{
    if !is_frame_size(first.len()) || first.len() != second.len() {
        return Err(Refusal::FrameSize);
    }
    Ok(two_records(first, second))
}
