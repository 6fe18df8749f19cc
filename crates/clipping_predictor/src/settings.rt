// What a predictor is made from, and what of it is kept.
ghost use Rattle.std.specs.Prelude.{◌≡◌};
ghost use Rattle.numbers.specs.Said.{said};
ghost use Rattle.clipping_predictor.specs.Settings.{levels_in_range, settings_of};

use clipping_predictor_level_buffer::MAX_CAPACITY;
use numbers::natural::at_least;
use numbers::refusal::Refusal;

#[derive(Clone, Copy)]
pub enum ClippingPredictorMode {
    ClippingEventPrediction,
    AdaptiveStepClippingPeakPrediction,
    FixedStepClippingPeakPrediction,
}

// Any bits. Threshold and margin are whole thousandths of a dB.
#[derive(Clone, Copy)]
pub struct ClippingPredictorConfig {
    pub enabled: bool,
    pub mode: ClippingPredictorMode,
    pub window_length: i32,
    pub reference_window_length: i32,
    pub reference_window_delay: i32,
    pub clipping_threshold: i32,
    pub crest_factor_margin: i32,
}

// The same, in order.
#[derive(Clone, Copy)]
pub struct Settings {
    pub enabled: bool,
    pub mode: ClippingPredictorMode,
    pub window: usize,
    pub reference: usize,
    pub delay: usize,
    pub threshold: i32,
    pub margin: i32,
}

// The most that a threshold or a margin may be, either way, in thousandths of a dB.
pub const MAX_LEVEL: u32 = 200000;

fn levels_in_range(threshold: i32, margin: i32) -> bool
    ensures { result ≡ levels_in_range threshold margin }
{
    threshold.unsigned_abs() <= MAX_LEVEL && margin.unsigned_abs() <= MAX_LEVEL
}

// Causes 7, 14 and 15, in that order: the first test that fails says which. Delay and reference are at most the largest i32, so their sum fits.
pub fn check(config: ClippingPredictorConfig) -> Result<Settings, Refusal>
    ensures { said result ≡ said (settings_of config) }
{
    let window = at_least(1, config.window_length).ok_or(Refusal::PredictorWindows)?;
    let reference = at_least(1, config.reference_window_length).ok_or(Refusal::PredictorWindows)?;
    let delay = at_least(0, config.reference_window_delay).ok_or(Refusal::PredictorWindows)?;
    let sum = delay + reference;
    if sum <= window {
        return Err(Refusal::PredictorWindows);
    }
    if MAX_CAPACITY < sum {
        return Err(Refusal::PredictorCapacity);
    }
    if !levels_in_range(config.clipping_threshold, config.crest_factor_margin) {
        return Err(Refusal::PredictorLevels);
    }
    Ok(Settings {
        enabled: config.enabled,
        mode: config.mode,
        window,
        reference,
        delay,
        threshold: config.clipping_threshold,
        margin: config.crest_factor_margin,
    })
}
