// How far a speech level lies outside its targets, in whole dB. Ports `get_speech_level_rms_error_db`.
ghost use Rattle.std.specs.Prelude.{◌≡◌};
ghost use Rattle.numbers.specs.Said.{said};
ghost use Rattle.mono_input_volume_controller.specs.SpeechLevel.{GoodTargets, held, error_of, rms_error_of};
ghost use Rattle.mono_input_volume_controller.specs.SpeechError.{speech_error_of};

use crate::config::both_in_range;
use numbers::refusal::Refusal;

// Rust's `clamp(-90.0, 30.0)`: a not-a-number passes through.
#[tactic(auto, unfolding(crate::specs::SpeechLevel::held))]
fn hold(level: f32) -> f32
    ensures { result ≡ held level }
{
    level.clamp(-90.0, 30.0)
}

// The error of a level that was held. A not-a-number is neither above nor below a target.
fn error_of(level: f32, min: i32, max: i32) -> i32
    requires { GoodTargets min max }
    ensures { result ≡ error_of level min max }
{
    // From has no f32 of an i32.
    let top = max as f32;
    let bottom = min as f32;
    if level > top {
        return levels::rounding::round(top - level);
    }
    if level < bottom {
        return levels::rounding::round(bottom - level);
    }
    0
}

// The error for targets in range. A match and no `map`: its two arms are the definition's two cases, each proved by itself.
fn rms_error(level: Option<f32>, min: i32, max: i32) -> Option<i32>
    requires { GoodTargets min max }
    ensures { result ≡ rms_error_of level min max }
{
    match level {
        None => None,
        Some(dbfs) => Some(error_of(hold(dbfs), min, max)),
    }
}

// Cause 5.
pub fn get_speech_level_rms_error_db(
    speech_level: Option<f32>,
    target_range_min_dbfs: i32,
    target_range_max_dbfs: i32,
) -> Result<Option<i32>, Refusal>
    ensures { said result ≡ said (speech_error_of speech_level target_range_min_dbfs target_range_max_dbfs) }
{
    if !both_in_range(-90, 30, target_range_max_dbfs, target_range_min_dbfs) {
        return Err(Refusal::TargetRange);
    }
    Ok(rms_error(speech_level, target_range_min_dbfs, target_range_max_dbfs))
}
