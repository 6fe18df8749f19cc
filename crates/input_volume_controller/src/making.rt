// What a making comes to. All tests come first, and what they lead to is built once and in one place: a controller is large, and one for each way would need a stack for each.
ghost use Rattle.std.specs.Prelude.{◌≡◌, ◌≤◌};
ghost use Rattle.clipping_predictor.specs.Predictor.{max_channels};
ghost use Rattle.clipping_predictor.specs.Settings.{settings_of as predictorSettingsOf};
ghost use Rattle.mono_input_volume_controller.specs.Config.{defaults, settings_from, Good as GoodSettings};
ghost use Rattle.input_volume_controller.specs.Controller.{base_predictor, switched, fresh, made_with, making_with, BuildsAs, DecidedAs, AnsweredAs};
ghost use Rattle.input_volume_controller.specs.Profile.{making_in};

use clipping_predictor::MAX_CHANNELS;
use clipping_predictor::settings::{ClippingPredictorConfig, ClippingPredictorMode};
use mono_input_volume_controller::config::{Config, Settings};
use mono_input_volume_controller::profile::{Profile, takes};
use numbers::natural::within;
use numbers::refusal::Refusal;

// What is built, which is in order.
#[derive(Clone, Copy)]
pub struct Decided {
    pub channels: usize,
    pub settings: Settings,
    pub predictor: ClippingPredictorConfig,
}

// The base's predictor, which `new` takes: the source's `ClippingPredictorConfig::default`, a function here, since the type is another crate's.
pub fn default_predictor_config() -> ClippingPredictorConfig
    ensures { result ≡ base_predictor }
{
    ClippingPredictorConfig {
        enabled: false,
        mode: ClippingPredictorMode::AdaptiveStepClippingPeakPrediction,
        window_length: 5,
        reference_window_length: 5,
        reference_window_delay: 5,
        clipping_threshold: -1000,
        crest_factor_margin: 3000,
    }
}

// The settings switch a predictor on and off; what its own configuration says is not looked at.
fn switched(on: bool, c: ClippingPredictorConfig) -> ClippingPredictorConfig
    ensures { result ≡ switched on c }
{
    let mut predictor = c;
    predictor.enabled = on;
    predictor
}

// Beside a refusal: one channel, the default settings, and the base's predictor.
fn unmade() -> Decided
    ensures { BuildsAs (fresh (settings_from defaults) 1) result }
{
    let settings = mono_input_volume_controller::config::default_settings();
    Decided {
        channels: 1,
        settings,
        predictor: switched(settings.predicts, default_predictor_config()),
    }
}

// A channel count and settings that were tested, and a predictor that is tested here, whether it is on or off: causes 7, 14 and 15.
fn with_settings(
    channels: usize,
    s: Settings,
    predictor: ClippingPredictorConfig,
) -> Result<Decided, Refusal>
    requires { (1 ≤ channels) × (channels ≤ max_channels) × GoodSettings s }
    ensures { DecidedAs (made_with channels s (predictorSettingsOf (switched s.predicts predictor))) result }
{
    let chosen = switched(s.predicts, predictor);
    clipping_predictor::settings::check(chosen)?;
    Ok(Decided {
        channels,
        settings: s,
        predictor: chosen,
    })
}

// For everybody: tests cause 1, then 2 to 6, and then 7, 14 and 15.
fn decide(
    num_capture_channels: i32,
    config: Config,
    predictor: ClippingPredictorConfig,
) -> Result<Decided, Refusal>
    ensures { DecidedAs (making_with num_capture_channels config predictor) result }
{
    let channels = within(1, MAX_CHANNELS, num_capture_channels).ok_or(Refusal::ChannelCount)?;
    let settings = mono_input_volume_controller::config::check(config)?;
    with_settings(channels, settings, predictor)
}

// All refusals of the plain controller come first, and then the profile's, cause 19: settings that the plain controller takes, and the profile does not.
// The arguments of a making go on as they came: a struct of them would be taken apart again at once.
fn decide_in(
    profile: Profile,
    num_capture_channels: i32,
    config: Config,
    predictor: ClippingPredictorConfig,
) -> Result<Decided, Refusal>
    ensures { DecidedAs (making_in profile num_capture_channels config predictor) result }
{
    let decided = decide(num_capture_channels, config, predictor)?;
    if !takes(profile, config) {
        return Err(Refusal::ClassroomProfile);
    }
    Ok(decided)
}

// What is answered, and what is built beside it. Out of line for the stack's sake.
#[inline(never)]
pub fn answered(
    profile: Profile,
    num_capture_channels: i32,
    config: Config,
    predictor: ClippingPredictorConfig,
) -> (Result<(), Refusal>, Decided)
    ensures { AnsweredAs (making_in profile num_capture_channels config predictor) result.0 result.1 }
{
    match decide_in(profile, num_capture_channels, config, predictor) {
        Ok(tested) => (Ok(()), tested),
        Err(cause) => (Err(cause), unmade()),
    }
}
