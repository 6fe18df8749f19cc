// The settings as C has them, the controller's and a predictor's.
ghost use Rattle.std.specs.Prelude.{◌≡◌};
ghost use Rattle.mono_input_volume_controller.specs.Config.{defaults};
ghost use Rattle.input_volume_controller.specs.Controller.{base_predictor};
ghost use Rattle.agc2.specs.Settings.{config_of, in_numbers, predictor_config_of, predictor_in_numbers, profile_of};

use clipping_predictor::settings::ClippingPredictorConfig;
use input_volume_controller::plain::{mode_number, mode_of};
use mono_input_volume_controller::config::Config;
use mono_input_volume_controller::profile::Profile;

// Any bits. The predictor is on unless its number is 0.
#[repr(C)]
#[derive(Clone, Copy)]
pub struct Agc2Config {
    pub min_input_volume: i32,
    pub clipped_level_min: i32,
    pub clipped_level_step: i32,
    pub clipped_ratio_threshold: f32,
    pub clipped_wait_frames: i32,
    pub enable_clipping_predictor: u32,
    pub target_range_max_dbfs: i32,
    pub target_range_min_dbfs: i32,
    pub update_input_volume_wait_frames: i32,
    pub speech_probability_threshold: f32,
    pub speech_ratio_threshold: f32,
}

// Any bits. The mode is event at 0, adaptive at 1 and fixed at any other number; threshold and margin are whole thousandths of a dB. The switch is the one above.
#[repr(C)]
#[derive(Clone, Copy)]
pub struct Agc2PredictorConfig {
    pub mode: u32,
    pub window_length: i32,
    pub reference_window_length: i32,
    pub reference_window_delay: i32,
    pub clipping_threshold: i32,
    pub crest_factor_margin: i32,
}

impl From<Agc2Config> for Config {
    ghost from_gives = { λ c r. r ≡ config_of c };

    fn from(c: Agc2Config) -> Config {
        Config {
            min_input_volume: c.min_input_volume,
            clipped_level_min: c.clipped_level_min,
            clipped_level_step: c.clipped_level_step,
            clipped_ratio_threshold: c.clipped_ratio_threshold,
            clipped_wait_frames: c.clipped_wait_frames,
            enable_clipping_predictor: c.enable_clipping_predictor != 0,
            target_range_max_dbfs: c.target_range_max_dbfs,
            target_range_min_dbfs: c.target_range_min_dbfs,
            update_input_volume_wait_frames: c.update_input_volume_wait_frames,
            speech_probability_threshold: c.speech_probability_threshold,
            speech_ratio_threshold: c.speech_ratio_threshold,
        }
    }
}

impl From<Config> for Agc2Config {
    ghost from_gives = { λ c r. r ≡ in_numbers c };

    fn from(c: Config) -> Agc2Config {
        Agc2Config {
            min_input_volume: c.min_input_volume,
            clipped_level_min: c.clipped_level_min,
            clipped_level_step: c.clipped_level_step,
            clipped_ratio_threshold: c.clipped_ratio_threshold,
            clipped_wait_frames: c.clipped_wait_frames,
            enable_clipping_predictor: u32::from(c.enable_clipping_predictor),
            target_range_max_dbfs: c.target_range_max_dbfs,
            target_range_min_dbfs: c.target_range_min_dbfs,
            update_input_volume_wait_frames: c.update_input_volume_wait_frames,
            speech_probability_threshold: c.speech_probability_threshold,
            speech_ratio_threshold: c.speech_ratio_threshold,
        }
    }
}

// The source's default settings.
pub fn agc2_default_config() -> Agc2Config
    ensures { result ≡ in_numbers defaults }
{
    Agc2Config::from(Config::default())
}

impl From<Agc2PredictorConfig> for ClippingPredictorConfig {
    ghost from_gives = { λ c r. r ≡ predictor_config_of c };

    fn from(c: Agc2PredictorConfig) -> ClippingPredictorConfig {
        ClippingPredictorConfig {
            enabled: false,
            mode: mode_of(c.mode),
            window_length: c.window_length,
            reference_window_length: c.reference_window_length,
            reference_window_delay: c.reference_window_delay,
            clipping_threshold: c.clipping_threshold,
            crest_factor_margin: c.crest_factor_margin,
        }
    }
}

impl From<ClippingPredictorConfig> for Agc2PredictorConfig {
    ghost from_gives = { λ c r. r ≡ predictor_in_numbers c };

    fn from(c: ClippingPredictorConfig) -> Agc2PredictorConfig {
        Agc2PredictorConfig {
            mode: mode_number(c.mode),
            window_length: c.window_length,
            reference_window_length: c.reference_window_length,
            reference_window_delay: c.reference_window_delay,
            clipping_threshold: c.clipping_threshold,
            crest_factor_margin: c.crest_factor_margin,
        }
    }
}

// A number, since C's enums may hold any bits.
// For everybody at 0, and for group teaching at any other number.
pub fn profile_of(number: u32) -> Profile
    ensures { result ≡ profile_of number }
{
    if number == 0 {
        return Profile::Plain;
    }
    Profile::Classroom
}

// The base's predictor, which `agc2_new_by_value` takes.
pub fn agc2_default_predictor_config() -> Agc2PredictorConfig
    ensures { result ≡ predictor_in_numbers base_predictor }
{
    Agc2PredictorConfig::from(input_volume_controller::default_predictor_config())
}
