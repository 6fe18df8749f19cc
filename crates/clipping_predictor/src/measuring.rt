// The levels of a frame's channels, measured two at a time: neither chain of additions waits for the other. The most clipped samples that a channel has are
// told by the levels; of a predictor that is off, which has no use for levels, they are counted alone.
ghost use Rattle.std.specs.Prelude.{◌≡◌, true, ◌+◌, ◌*◌, ◌≤◌, length};
ghost use Rattle.clipping_predictor_level_buffer.specs.Level.{max_samples_per_channel};
ghost use Rattle.clipping_predictor_level_buffer.specs.Clipped.{clipped_in};
ghost use Rattle.clipping_predictor.specs.Predictor.{max_channels, part_of, frame_fits};
ghost use Rattle.clipping_predictor.specs.FrameLevels.{is_channel_count, levels_array, MeasuredOf};
ghost use Rattle.clipping_predictor.specs.MostClipped.{most_clipped, most_counted};
ghost use Rattle.clipping_predictor.specs.AllRings.{BroughtBy};

use crate::modes::Asked;
use crate::{MAX_CHANNELS, frame_fits};
use clipping_predictor_level_buffer::level::{Level, count_of, measure, measure_two};
use numbers::refusal::Refusal;

// A level for each channel, by its place; those past the channel count are silence, as by default all are.
#[derive(Clone, Copy, Default)]
pub struct Levels {
    pub items: [Level; MAX_CHANNELS],
}

// What a frame brings to a predictor: the levels that enter the rings, if any do, and the most clipped samples that a channel has.
#[derive(Clone, Copy)]
pub struct Brought {
    pub levels: Option<Levels>,
    pub clipped: u32,
}

// The samples of one channel of a frame.
fn part(samples: usize, frame: &[f32], channel: usize) -> &[f32]
    requires { (channel * samples + samples ≤ length frame.now) × (length frame.now ≤ 3840) }
    ensures { result.now ≡ part_of samples frame.now channel }
{
    let start = channel * samples;
    &frame[start..start + samples]
}

// The levels of a frame that fits. The last of an odd count is measured alone.
fn levels_of(channels: usize, samples: usize, frame: &[f32]) -> Levels
    requires { (channels ≤ max_channels) × (frame_fits channels samples frame.now ≡ true) }
    ensures { result.items ≡ levels_array channels samples frame.now }
{
    let mut r = Levels::default();
    // By the pair's number: two channels of it stand in one lent frame, and two levels in the answer.
    for pair in 0..channels / 2 {
        let c = 2 * pair;
        let first = part(samples, frame, c);
        let second = part(samples, frame, c + 1);
        let (level, next) = measure_two(first, second).unwrap();
        r.items[c] = level;
        r.items[c + 1] = next;
    }
    if channels % 2 == 1 {
        let last = channels - 1;
        r.items[last] = measure(part(samples, frame, last)).unwrap();
    }
    r
}

// Whether a predictor may have so many channels.
fn is_channel_count(channels: usize) -> bool
    ensures { result ≡ is_channel_count channels }
{
    (1..=MAX_CHANNELS).contains(&channels)
}

// The levels of a frame's channels, or why there are none. Tests causes 1 and 9, in that order.
pub fn measure_channels(
    channels: usize,
    samples_per_channel: usize,
    frame: &[f32],
) -> Result<Levels, Refusal>
    ensures { MeasuredOf channels samples_per_channel frame.now result }
{
    if !is_channel_count(channels) {
        return Err(Refusal::ChannelCount);
    }
    // The casts of this file are proved to fit; `try_from` would have an arm that never runs.
    if !frame_fits(channels as u8, samples_per_channel, frame) {
        return Err(Refusal::FrameSize);
    }
    Ok(levels_of(channels, samples_per_channel, frame))
}

// How many samples of a channel are clipped. A loop, since what a `sum` over a `map` says of the total has no proof here.
fn clipped_in(samples: &[f32]) -> u32
    requires { length samples.now ≤ max_samples_per_channel }
    ensures { result ≡ clipped_in samples.now }
{
    let mut count: u32 = 0;
    for sample in samples {
        count += count_of(*sample);
    }
    count
}

// The most that one of the first channels of a frame has.
fn most_clipped(first: usize, channels: usize, samples: usize, frame: &[f32]) -> u32
    requires { (first ≤ channels) × (channels ≤ max_channels) × (frame_fits channels samples frame.now ≡ true) }
    ensures { result ≡ most_clipped first samples frame.now }
{
    let mut most: u32 = 0;
    // By the channel's number, which says where its part of the frame begins.
    for c in 0..first {
        most = most.max(clipped_in(part(samples, frame, c)));
    }
    most
}

// The same of levels.
fn most_counted(first: usize, levels: Levels) -> u32
    requires { first ≤ max_channels }
    ensures { result ≡ most_counted first levels.items }
{
    let mut most: u32 = 0;
    for level in &levels.items[..first] {
        most = most.max(level.clipped);
    }
    most
}

// Of a predictor that is on all channels are measured; of one that is off their clipped samples are counted, if anything is asked. Out of line for the stack's sake.
// The original's two arguments, the samples of each channel and the frame, are handed on as they came.
#[inline(never)]
pub(crate) fn bring(
    on: bool,
    channels: usize,
    samples: usize,
    frame: &[f32],
    question: Option<Asked>,
) -> Brought
    requires { channels ≤ max_channels }
    ensures { BroughtBy on channels samples frame.now question result }
{
    if !frame_fits(channels as u8, samples, frame) {
        return Brought {
            levels: None,
            clipped: 0,
        };
    }
    let first = question.map_or(0, |_| channels);
    if !on {
        return Brought {
            levels: None,
            clipped: most_clipped(first, channels, samples, frame),
        };
    }
    let levels = levels_of(channels, samples, frame);
    Brought {
        levels: Some(levels),
        clipped: most_counted(first, levels),
    }
}
