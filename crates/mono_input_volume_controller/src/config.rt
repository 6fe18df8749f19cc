// The settings: what a controller is made from, and what of it is kept. Ports `Config`.
ghost use Rattle.std.specs.Prelude.{◌≡◌};
ghost use Rattle.numbers.specs.Said.{said};
ghost use Rattle.mono_input_volume_controller.specs.Config.{defaults, in_range, both_in_range, in_unit, both_in_unit, InOrder, settings_from, settings_of};

use numbers::refusal::Refusal;

// Any bits. target_range_experimental_max_dbfs is left out: nothing reads it.
#[derive(Clone, Copy)]
pub struct Config {
    pub min_input_volume: i32,
    pub clipped_level_min: i32,
    pub clipped_level_step: i32,
    pub clipped_ratio_threshold: f32,
    pub clipped_wait_frames: i32,
    pub enable_clipping_predictor: bool,
    pub target_range_max_dbfs: i32,
    pub target_range_min_dbfs: i32,
    pub update_input_volume_wait_frames: i32,
    pub speech_probability_threshold: f32,
    pub speech_ratio_threshold: f32,
}

// The same, in order: volumes and waits are unsigned, and the update wait is at least 1. Words come before bytes, so that no gap is left.
#[repr(C)]
#[derive(Clone, Copy)]
pub struct Settings {
    pub clipped_ratio: f32,
    pub clipped_wait: u32,
    pub max_target: i32,
    pub min_target: i32,
    pub update_wait: u32,
    pub speech_probability: f32,
    pub speech_ratio: f32,
    pub least: u8,
    pub floor: u8,
    pub step: u8,
    pub predicts: bool,
}

// The source's default settings.
impl Default for Config {
    ghost is_default = { λ config. config ≡ defaults };

    fn default() -> Config {
        Config {
            min_input_volume: 20,
            clipped_level_min: 70,
            clipped_level_step: 15,
            clipped_ratio_threshold: 0.1,
            clipped_wait_frames: 300,
            enable_clipping_predictor: true,
            target_range_max_dbfs: -30,
            target_range_min_dbfs: -50,
            update_input_volume_wait_frames: 100,
            speech_probability_threshold: 0.7,
            speech_ratio_threshold: 0.6,
        }
    }
}

#[tactic(auto, unfolding(crate::specs::Config::in_range))]
pub(crate) fn in_range(low: i32, high: i32, x: i32) -> bool
    ensures { result ≡ in_range low high x }
{
    (low..=high).contains(&x)
}

#[tactic(auto, unfolding(crate::specs::Config::both_in_range))]
pub fn both_in_range(low: i32, high: i32, x: i32, y: i32) -> bool
    ensures { result ≡ both_in_range low high x y }
{
    in_range(low, high, x) && in_range(low, high, y)
}

// From 0 to 1. A not-a-number is not.
#[tactic(auto, unfolding(crate::specs::Config::in_unit))]
pub(crate) fn in_unit(x: f32) -> bool
    ensures { result ≡ in_unit x }
{
    (0.0..=1.0).contains(&x)
}

#[tactic(auto, unfolding(crate::specs::Config::both_in_unit))]
fn both_in_unit(x: f32, y: f32) -> bool
    ensures { result ≡ both_in_unit x y }
{
    in_unit(x) && in_unit(y)
}

// Settings in range, as they are kept.
fn kept(config: Config) -> Settings
    requires { InOrder config }
    ensures { result ≡ settings_from config }
{
    Settings {
        // Proved to fit, as those below; `try_from` would have an arm that never runs.
        least: config.min_input_volume.unsigned_abs() as u8,
        floor: config.clipped_level_min.unsigned_abs() as u8,
        step: config.clipped_level_step.unsigned_abs() as u8,
        clipped_ratio: config.clipped_ratio_threshold,
        clipped_wait: config.clipped_wait_frames.unsigned_abs(),
        predicts: config.enable_clipping_predictor,
        max_target: config.target_range_max_dbfs,
        min_target: config.target_range_min_dbfs,
        update_wait: config.update_input_volume_wait_frames.unsigned_abs().max(1),
        speech_probability: config.speech_probability_threshold,
        speech_ratio: config.speech_ratio_threshold,
    }
}

// The default settings, as they are kept.
pub fn default_settings() -> Settings
    ensures { result ≡ settings_from defaults }
{
    kept(Config::default())
}

// Causes 2 to 6, in that order.
pub fn check(config: Config) -> Result<Settings, Refusal>
    ensures { said result ≡ said (settings_of config) }
{
    if !both_in_range(0, 255, config.min_input_volume, config.clipped_level_min) {
        return Err(Refusal::MinimumVolume);
    }
    if !in_range(1, 255, config.clipped_level_step) {
        return Err(Refusal::ClippedLevelStep);
    }
    if !both_in_range(
        0,
        65535,
        config.clipped_wait_frames,
        config.update_input_volume_wait_frames,
    ) {
        return Err(Refusal::WaitFrames);
    }
    if !both_in_range(
        -90,
        30,
        config.target_range_max_dbfs,
        config.target_range_min_dbfs,
    ) {
        return Err(Refusal::TargetRange);
    }
    if !both_in_unit(
        config.speech_probability_threshold,
        config.speech_ratio_threshold,
    ) {
        return Err(Refusal::SpeechThreshold);
    }
    Ok(kept(config))
}
