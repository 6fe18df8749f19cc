// Whether a frame is taken, with which volumes, and why not: before anything of its controller changes.
ghost use Rattle.std.specs.Prelude.{◌≡◌, ◌≤◌};
ghost use Rattle.clipping_predictor.specs.Predictor.{max_channels};
ghost use Rattle.input_volume_controller.specs.Calls.{accepted_volumes};

use crate::limits::{Limits, is_within};
use crate::volume_set::VolumeSet;
use clipping_predictor::{MAX_CHANNELS, frame_fits};
use numbers::refusal::Refusal;

// The volumes of a frame that is taken. Causes 20, 8, 9 and 18, in that order.
pub fn accepted_volumes(
    most: Limits,
    channels: usize,
    set: VolumeSet,
    samples: usize,
    frame: &[f32],
) -> Result<[u8; MAX_CHANNELS], Refusal>
    requires { channels ≤ max_channels }
    ensures { result ≡ accepted_volumes most channels set samples frame.now }
{
    if set.count != channels {
        return Err(Refusal::VolumeCount);
    }
    let levels = set.levels.ok_or(Refusal::InputVolume)?;
    // Proved to fit; `try_from` would have an arm that never runs.
    if !frame_fits(channels as u8, samples, frame) {
        return Err(Refusal::FrameSize);
    }
    if !is_within(most, channels, samples) {
        return Err(Refusal::FrameLimits);
    }
    Ok(levels)
}
