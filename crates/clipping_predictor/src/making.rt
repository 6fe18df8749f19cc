// What a making comes to. All tests come first, and what they lead to is built once and in one place: a predictor is large, and one for each way would need a stack for each.
ghost use Rattle.clipping_predictor.specs.Predictor.{unmade_settings, empty_predictor, making_of, BuildsAs, DecidedAs, AnsweredAs};

use crate::MAX_CHANNELS;
use crate::settings::{ClippingPredictorConfig, ClippingPredictorMode, Settings};
use numbers::natural::within;
use numbers::refusal::Refusal;

// What is built, which is in order.
#[derive(Clone, Copy)]
pub struct Decided {
    pub channels: usize,
    pub settings: Settings,
}

// Beside a refusal: one channel, and off.
fn unmade() -> Decided
    ensures { BuildsAs (empty_predictor unmade_settings 1) result }
{
    Decided {
        channels: 1,
        settings: Settings {
            enabled: false,
            mode: ClippingPredictorMode::AdaptiveStepClippingPeakPrediction,
            window: 5,
            reference: 5,
            delay: 5,
            threshold: 0,
            margin: 0,
        },
    }
}

// Tests cause 1, and then 7, 14 and 15.
fn decide(num_channels: i32, config: ClippingPredictorConfig) -> Result<Decided, Refusal>
    ensures { DecidedAs (making_of num_channels config) result }
{
    let channels = within(1, MAX_CHANNELS, num_channels).ok_or(Refusal::ChannelCount)?;
    let settings = crate::settings::check(config)?;
    Ok(Decided { channels, settings })
}

// What is answered, and what is built beside it. Out of line for the stack's sake.
#[inline(never)]
pub fn answered(
    num_channels: i32,
    config: ClippingPredictorConfig,
) -> (Result<(), Refusal>, Decided)
    ensures { AnsweredAs (making_of num_channels config) result.0 result.1 }
{
    match decide(num_channels, config) {
        Ok(tested) => (Ok(()), tested),
        Err(cause) => (Err(cause), unmade()),
    }
}
