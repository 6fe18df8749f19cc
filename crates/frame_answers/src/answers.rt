// A line with a controller: its frame, and the recommendation that follows an accepted frame.
ghost use Rattle.std.specs.Prelude.{pos, length};
ghost use Rattle.input_volume_controller.specs.Controller.{Good, view_of};
ghost use Rattle.input_volume_controller.specs.Volumes.{equal_volumes};
ghost use Rattle.input_volume_controller.specs.Limits.{plain_limits};
ghost use Rattle.input_volume_controller.specs.Calls.{frame, recommendation};
ghost use Rattle.frame_answers.specs.Answered.{RecommendedAs, FrameAnsweredAs, AnsweredAs, VolumePending};

use frame_lines::answer::{Recommended, Reply};
use frame_lines::line::{Frame, MOST_SAMPLES, parse};
use input_volume_controller::InputVolumeController;
use numbers::refusal::Refusal;

// A refusal has a controller too, so it stands beside the reply and not in it.
// What a line is answered, and the controller after it.
#[derive(Clone, Copy)]
pub struct Answered {
    pub controller: InputVolumeController,
    pub reply: Reply,
}

// The recommendation after a frame, beside that frame's mark. With a volume pending there always is one. The control alone is changed, in its place: no ring is copied for it.
fn recommended(
    controller: &mut InputVolumeController,
    near: bool,
    probability: f32,
    level: Option<f32>,
) -> Reply
    requires { Good controller.old × VolumePending (view_of controller.old) }
    ensures { RecommendedAs controller.old near probability level (record { controller = controller.new; reply = result }) }
{
    let done = controller
        .control
        .recommend_input_volume(probability, level);
    controller.control = done.control;
    let answer = done.answer;
    let Some(volume) = answer else {
        return Ok(Recommended { volume: 0, near });
    };
    Ok(Recommended {
        // Proved to fit; `try_from` would have an arm that never runs.
        volume: volume.unsigned_abs() as u8,
        near,
    })
}

// The frame of a line, and the recommendation that follows. It gets what was parsed, so that it is asked for a line in order alone, and the controller in its place: each pass by value would copy its rings.
pub(crate) fn answer_frame(
    controller: &mut InputVolumeController,
    parsed: Frame,
    samples: &[f32],
) -> Reply
    requires { Good controller.old }
    ensures { FrameAnsweredAs controller.old (frame plain_limits (equal_volumes (pos parsed.volume) controller.old.control.channels.count) (length samples.now) samples.now) (recommendation parsed.probability parsed.level) (record { controller = controller.new; reply = result }) }
{
    let heard = controller.analyze_input_audio(i32::from(parsed.volume), samples.len(), samples);
    let answer = heard.answer;
    *controller = heard.controller;
    match answer {
        Err(cause) => Err(cause),
        Ok(near) => recommended(controller, near, parsed.probability, parsed.level),
    }
}

// A line, without its line feed.
pub fn answer_line(controller: InputVolumeController, line: &[u8]) -> Answered
    requires { Good controller }
    ensures { AnsweredAs controller line.now result }
{
    let mut samples = [0.0f32; MOST_SAMPLES];
    let Some(parsed) = parse(line, &mut samples) else {
        return Answered {
            controller,
            reply: Err(Refusal::FrameLine),
        };
    };
    let mut next = controller;
    let reply = answer_frame(&mut next, parsed, &samples[..parsed.count]);
    Answered {
        controller: next,
        reply,
    }
}
