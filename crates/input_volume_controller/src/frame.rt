// What an accepted frame does, once its volumes are applied. The two parts of the controller are handed on apart: the rings, which are most of it, are then copied only where they
// change and where the answer is made.
ghost use Rattle.std.specs.Prelude.{◌≡◌, true, ◌≤◌, ltb};
ghost use Rattle.std.specs.Float.Ieee.{lt};
ghost use Rattle.clipping_predictor_level_buffer.specs.Level.{max_samples_per_channel};
ghost use Rattle.clipping_predictor.specs.Predictor.{frame_fits};
ghost use Rattle.clipping_predictor.specs.Predictor.{view_of as predictorOf};
ghost use Rattle.clipping_predictor.specs.AllRings.{predicted_for};
ghost use Rattle.input_volume_controller.specs.ClippedRatio.{ratio_of};
ghost use Rattle.input_volume_controller.specs.Controller.{together, view_of, Good};
ghost use Rattle.input_volume_controller.specs.Control.{control_of, Good as GoodControl};
ghost use Rattle.input_volume_controller.specs.Differ.{differ};
ghost use Rattle.input_volume_controller.specs.Frame.{question_of, handled, unless_waiting, if_used};
ghost use Rattle.input_volume_controller.specs.Calls.{Framed};

use crate::clipped_ratio::compute_clipped_ratio;
use crate::volume_control::{VolumeControl, lower_channels, one_frame_more};
use crate::{Analyzed, InputVolumeController};
use clipping_predictor::{Asked, ClippingPredictor, Heard};
use mono_input_volume_controller::mono::MAX_INPUT_VOLUME;

// What the rings are asked once a frame has entered them: nothing within the wait.
fn question(control: VolumeControl) -> Option<Asked>
    ensures { result ≡ question_of (control_of control) }
{
    if control.since < control.settings.clipped_wait {
        return None;
    }
    Some(Asked {
        level: control.volume,
        step: control.settings.step,
        least: control.settings.floor,
        most: MAX_INPUT_VOLUME,
    })
}

// Whether two drops, 0 for none, return different states. Nothing is tried where they are one, as in nearly every frame. Out of line for the stack's sake.
#[inline(never)]
fn differ(clipped: bool, control: VolumeControl, drop: u8, other: u8) -> bool
    requires { GoodControl control }
    ensures { result ≡ differ clipped (control_of control) drop other }
{
    if drop == other {
        return false;
    }
    let one = clipped || drop > 0;
    let two = clipped || other > 0;
    if !one {
        return two;
    }
    if !two {
        return true;
    }
    let step = control.settings.step;
    control
        .channels
        .lower_differently(step.max(drop), step.max(other))
}

// The wait is over: clipping that is seen or predicted lowers every channel and empties the rings.
fn tested(control: VolumeControl, heard: Heard, clipped: bool) -> Analyzed
    requires { Good (together control heard.predictor) }
    ensures { Framed (handled clipped heard.estimated (view_of (together control heard.predictor))) result }
{
    let e = heard.estimated;
    let predictor = heard.predictor;
    let near = differ(clipped, control, e.low, e.high);
    let lowers = clipped || e.drop > 0;
    if !lowers {
        return Analyzed {
            controller: InputVolumeController { control, predictor },
            answer: Ok(near),
        };
    }
    let step = control.settings.step.max(e.drop);
    Analyzed {
        controller: InputVolumeController {
            control: lower_channels(control, step),
            predictor: predictor.reset(),
        },
        answer: Ok(near),
    }
}

// A frame that is in the rings, with what they answered: within the wait it only counts.
fn entered(control: VolumeControl, heard: Heard, samples: usize) -> Analyzed
    requires { Good (together control heard.predictor) × (heard.clipped ≤ samples) × (samples ≤ max_samples_per_channel) × (heard.estimated ≡ predicted_for (question_of (control_of control)) (predictorOf heard.predictor)) }
    ensures { Framed (unless_waiting (ltb control.since control.settings.clipped_wait) (lt control.settings.clipped_ratio (ratio_of heard.clipped samples)) (view_of (together control heard.predictor))) result }
{
    if control.since < control.settings.clipped_wait {
        let predictor = heard.predictor;
        return Analyzed {
            controller: InputVolumeController {
                control: one_frame_more(control),
                predictor,
            },
            answer: Ok(false),
        };
    }
    let ratio = compute_clipped_ratio(heard.clipped, samples);
    let threshold = control.settings.clipped_ratio;
    tested(control, heard, ratio > threshold)
}

// With capture on a frame enters the rings; with capture off it only sets the volume.
pub fn accepted(
    control: VolumeControl,
    predictor: ClippingPredictor,
    samples: usize,
    frame: &[f32],
) -> Analyzed
    requires { Good (together control predictor) × (frame_fits control.channels.count samples frame.now ≡ true) }
    ensures { Framed (if_used control.used samples frame.now (view_of (together control predictor))) result }
{
    if control.used {
        let heard = predictor.heard(samples, frame, question(control));
        return entered(control, heard, samples);
    }
    Analyzed {
        controller: InputVolumeController { control, predictor },
        answer: Ok(false),
    }
}
