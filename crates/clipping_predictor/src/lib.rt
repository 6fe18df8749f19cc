// Frame-wise clipping prediction and clipped level step estimation. Ports clipping_predictor.rs: `Box<dyn ClippingPredictor>` is a mode beside the state,
// and `&mut self` a predictor by value that is handed back.
#![tactic(auto)]

ghost use Rattle.std.specs.Prelude.{◌≡◌, ◌*◌, ◌≤◌};
ghost use Rattle.numbers.specs.Said.{said};
ghost use Rattle.clipping_predictor.specs.Settings.{Good as GoodSettings};
ghost use Rattle.clipping_predictor.specs.AllRings.{HeardOf, MayEnter, HeardLevelsOf};
ghost use Rattle.clipping_predictor.specs.Predictor.{max_channels, Good, view_of, Fresh, CreatedOf, frame_fits, outcome_if, AnalyzedOf, ResetOf};
ghost use Rattle.clipping_predictor.specs.EstimateCall.{arguments_of, drop_or, estimate_of};

use crate::measuring::{Brought, bring};
pub use crate::modes::{Asked, Estimated};
use crate::modes::{answered, joined};
use crate::settings::{ClippingPredictorConfig, Settings};
use clipping_predictor_level_buffer::ClippingPredictorLevelBuffer;
use clipping_predictor_level_buffer::level::is_frame_size;
use numbers::natural::within;
use numbers::refusal::Refusal;

mod making;
pub mod measuring;
mod modes;
pub mod settings;

// The most channels that a predictor has.
pub const MAX_CHANNELS: usize = 8;

// One ring for each channel; those past the channel count are not used. No field says that they are in order: C's memory, which may hold any bits, is read into one.
#[derive(Clone, Copy)]
pub struct ClippingPredictor {
    pub rings: [ClippingPredictorLevelBuffer; MAX_CHANNELS],
    pub channels: usize,
    pub settings: Settings,
}

// What making answers. A refusal has a predictor of one channel beside it that is off: C's memory is written either way, so no `Result` holds the predictor.
#[derive(Clone, Copy)]
pub struct Created {
    pub answer: Result<(), Refusal>,
    pub predictor: ClippingPredictor,
}

// What a frame answers. A refusal hands the very predictor back, so no `Result` holds it.
#[derive(Clone, Copy)]
pub struct Analyzed {
    pub answer: Result<(), Refusal>,
    pub predictor: ClippingPredictor,
}

// The predictor after a frame, what its rings answer then, and the most clipped samples that a channel of the frame has.
#[derive(Clone, Copy)]
pub struct Heard {
    pub predictor: ClippingPredictor,
    pub estimated: Estimated,
    pub clipped: u32,
}

// By how much the level is to fall, if at all, and whether the estimate is near.
#[derive(Clone, Copy)]
pub struct Estimate {
    pub drop: Option<i32>,
    pub near: bool,
}

// A predictor with empty rings.
fn fresh(channels: usize, settings: Settings) -> ClippingPredictor
    requires { GoodSettings settings × (1 ≤ channels) × (channels ≤ max_channels) }
    ensures { Fresh channels settings result }
{
    // The casts of this file are proved to fit; `try_from` would have an arm that never runs.
    let made = ClippingPredictorLevelBuffer::new((settings.delay + settings.reference) as i32);
    ClippingPredictor {
        rings: [made.ring; MAX_CHANNELS],
        channels,
        settings,
    }
}

// It goes into its caller, for the stack's sake.
#[inline(always)]
pub fn create_clipping_predictor(num_channels: i32, config: ClippingPredictorConfig) -> Created
    ensures { CreatedOf num_channels config result }
{
    let (answer, built) = making::answered(num_channels, config);
    Created {
        answer,
        predictor: fresh(built.channels, built.settings),
    }
}

// A byte as the answer's number.
fn answer_of(drop: u8, near: bool) -> Estimate
    ensures { result ≡ drop_or drop near }
{
    Estimate {
        drop: (drop != 0).then_some(i32::from(drop)),
        near,
    }
}

// Cause 9. A count of channels is at most 255 here by its type, so the product is one that fits.
pub fn frame_fits(channels: u8, samples: usize, frame: &[f32]) -> bool
    ensures { result ≡ frame_fits channels samples frame.now }
{
    is_frame_size(samples) && frame.len() == usize::from(channels) * samples
}

// What an estimate is asked with, each number in its range.
fn arguments_in_range(
    channels: usize,
    channel: i32,
    level: i32,
    default_step: i32,
    min_mic_level: i32,
    max_mic_level: i32,
) -> Result<(usize, Asked), Refusal>
    requires { 1 ≤ channels }
    ensures { result ≡ arguments_of channels channel level default_step min_mic_level max_mic_level }
{
    let here = within(0, 255, level).ok_or(Refusal::InputVolume)?;
    let place = within(0, channels - 1, channel).ok_or(Refusal::EstimateRange)?;
    let step = within(1, 255, default_step).ok_or(Refusal::EstimateRange)?;
    let least = within(0, 255, min_mic_level).ok_or(Refusal::EstimateRange)?;
    let most = within(0, 255, max_mic_level).ok_or(Refusal::EstimateRange)?;
    if most < least || most < here {
        return Err(Refusal::EstimateRange);
    }
    Ok((
        place,
        Asked {
            level: here as u8,
            step: step as u8,
            least: least as u8,
            most: most as u8,
        },
    ))
}

impl ClippingPredictor {
    // The predictor after a frame of all channels, one after another, what its rings then answer, and the most clipped samples that a channel has. A frame that does not fit, or that comes to a
    // predictor which is off, enters no ring.
    pub fn heard(self, samples_per_channel: usize, frame: &[f32], question: Option<Asked>) -> Heard
        requires { Good self }
        ensures { HeardOf self samples_per_channel frame.now question result }
    {
        let brought = bring(
            self.settings.enabled,
            self.channels,
            samples_per_channel,
            frame,
            question,
        );
        self.heard_levels(brought, question)
    }

    // Each ring is pushed to and asked in its place in the array, of which no copy is made then: an iterator that writes would leave its records unknown to the check. No level is refused, since its count is in range.
    fn heard_levels(self, brought: Brought, question: Option<Asked>) -> Heard
        requires { Good self × MayEnter self brought }
        ensures { HeardLevelsOf self brought question result }
    {
        let Some(levels) = brought.levels else {
            return Heard {
                predictor: self,
                estimated: modes::no_estimate(),
                clipped: brought.clipped,
            };
        };
        let settings = self.settings;
        let channels = self.channels;
        let mut p = self;
        let mut e = modes::no_estimate();
        // By place: the levels and the rings go together, and a ring is asked where it stands, of which no copy is made.
        for c in 0..channels {
            let level = levels.items[c];
            let old = p.rings[c];
            let after = old.push_level(level);
            let pushed = after.ring;
            p.rings[c] = pushed;
            let ring = p.rings[c];
            e = joined(e, answered(settings, ring, question));
        }
        Heard {
            predictor: p,
            estimated: e,
            clipped: brought.clipped,
        }
    }

    // The same with nothing asked but whether the frame fits.
    pub fn analyze(self, samples_per_channel: usize, frame: &[f32]) -> Analyzed
        requires { Good self }
        ensures { AnalyzedOf self samples_per_channel frame.now result }
    {
        let fits = frame_fits(self.channels as u8, samples_per_channel, frame);
        Analyzed {
            answer: fits.then_some(()).ok_or(Refusal::FrameSize),
            predictor: self.heard(samples_per_channel, frame, None).predictor,
        }
    }

    // By place: of rings that are written through a slice of theirs the check knows afterwards how many they are, and no more.
    pub fn reset(self) -> ClippingPredictor
        requires { Good self }
        ensures { ResetOf self result }
    {
        let channels = self.channels;
        let mut p = self;
        for c in 0..channels {
            p.rings[c] = p.rings[c].reset();
        }
        p
    }

    pub fn estimate_clipped_level_step(
        self,
        channel: i32,
        level: i32,
        default_step: i32,
        min_mic_level: i32,
        max_mic_level: i32,
    ) -> Result<Estimate, Refusal>
        requires { Good self }
        ensures { said result ≡ said (estimate_of (view_of self) (arguments_of self.channels channel level default_step min_mic_level max_mic_level)) }
    {
        let (place, asked) = arguments_in_range(
            self.channels,
            channel,
            level,
            default_step,
            min_mic_level,
            max_mic_level,
        )?;
        let e = modes::estimate_for(self.settings, self.rings[place], asked);
        Ok(answer_of(e.drop, e.low < e.high))
    }
}
