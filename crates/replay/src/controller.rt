// The lines of the controller: made, frames, recommendations, initialises, capture switches, and what it holds. Each call's answer has the controller's volume behind it, or all of
// its state.
ghost use Rattle.std.specs.Prelude.{◌≤◌};
ghost use Rattle.input_volume_controller.specs.Controller.{Good};

use crate::line::Line;
use crate::state::Records;
use crate::{predictor, print, state};
use input_volume_controller::{Analyzed, Created, InputVolumeController};
use mono_input_volume_controller::config::Config;

// What is shown of a controller behind an answer.
#[derive(Clone, Copy)]
pub enum Shown {
    Volume,
    Whole,
}

// The controller as it is kept from line to line, in order, and what is shown of it.
#[derive(Clone, Copy)]
pub struct Kept {
    pub controller: InputVolumeController,
    pub shown: Shown,
    ghost good: { Good controller },
}

// One channel, with the default settings.
pub fn fresh() -> Kept {
    let created = InputVolumeController::new(1, Config::default());
    Kept {
        controller: created.controller,
        shown: Shown::Volume,
    }
}

fn config(line: Line) -> Config {
    Config {
        min_input_volume: line.number(1),
        clipped_level_min: line.number(2),
        clipped_level_step: line.number(3),
        clipped_ratio_threshold: line.float(4),
        clipped_wait_frames: line.number(5),
        enable_clipping_predictor: line.number(6) == 1,
        target_range_max_dbfs: line.number(7),
        target_range_min_dbfs: line.number(8),
        update_input_volume_wait_frames: line.number(9),
        speech_probability_threshold: line.float(10),
        speech_ratio_threshold: line.float(11),
    }
}

// The predictor's fields stand behind the settings, of which the last has number 11. The switch is the one of the settings.
fn with_predictor(line: Line) -> Created
    ensures { Good result.controller }
{
    InputVolumeController::with_predictor(
        line.number(0),
        config(line),
        predictor::config(line, false, 12),
    )
}

// Which of the calls a frame goes through: an enum, since a closure would have to say in clauses that it keeps a controller in order.
#[derive(Clone, Copy)]
enum Entry {
    Everybody,
    WordSpotter,
}

fn analyzed(
    c: InputVolumeController,
    entry: Entry,
    volume: i32,
    samples: usize,
    frame: &[f32],
) -> Analyzed
    requires { Good c }
    ensures { Good result.controller }
{
    match entry {
        Entry::Everybody => c.analyze_input_audio(volume, samples, frame),
        Entry::WordSpotter => c.spotter_analyze_input_audio(volume, samples, frame),
    }
}

fn speech_level(line: Line) -> Option<f32> {
    if line.is_dash(1) {
        return None;
    }
    Some(line.float(1))
}

impl Kept {
    // All that it holds, with the newest records, or all of them.
    fn print_whole<R: Print>(self, rt: &R, records: Records) {
        state::print_control(rt, self.controller.control);
        state::print_rings(rt, self.controller.predictor, "", records, "/");
    }

    // What stands behind the answer of a call.
    fn print_after<R: Print>(self, rt: &R) {
        match self.shown {
            Shown::Volume => {
                let _ = print!(rt; " {}", self.controller.recommended_input_volume());
            }
            Shown::Whole => self.print_whole(rt, Records::Newest),
        }
    }

    // What a call leaves is shown, and kept.
    fn left<R: Print>(self, rt: &R, controller: InputVolumeController) -> Kept
        requires { Good controller }
    {
        let next = Kept {
            controller,
            shown: self.shown,
        };
        next.print_after(rt);
        next
    }

    fn accepted<R: Print>(self, rt: &R, controller: InputVolumeController) -> Kept
        requires { Good controller }
    {
        print::ok(rt);
        self.left(rt, controller)
    }

    // A refused making leaves the controller that was there.
    fn made<R: Print>(self, rt: &R, created: Created) -> Kept
        requires { Good created.controller }
    {
        let answer = created.answer;
        if !print::accepted(rt, answer) {
            return self;
        }
        self.accepted(rt, created.controller)
    }

    // What a frame handed back is written; a near one has an `n` behind its answer.
    fn told<R: Print>(self, rt: &R, done: Analyzed) -> Kept
        requires { Good done.controller }
    {
        let answer = done.answer;
        print::analysis(rt, answer);
        let next = self.left(rt, done.controller);
        print::mark(rt, answer);
        next
    }

    // A frame: its volume, how many samples a channel has where that is said, and the floats, of which a channel has its share where it is not.
    fn framed<R: Print>(self, rt: &R, line: Line, each: Option<usize>, entry: Entry) -> Kept {
        let c = self.controller;
        let mut space = [0.0f32; 3840];
        let frame = line.floats(if each.is_some() { 2 } else { 1 }, &mut space);
        let share = frame.len().checked_div(c.control.channels.count);
        let samples = each.or(share).unwrap_or(0);
        self.told(rt, analyzed(c, entry, line.number(0), samples, frame))
    }

    // A frame with a set of volumes: samples, how many volumes, the volumes, floats. A set of more than 16 is refused as one of 16 is.
    fn framed_each<R: Print>(self, rt: &R, line: Line) -> Kept {
        let c = self.controller;
        let given = line.natural(1);
        let mut volumes = [0i32; 16];
        // no more fields than the line has volumes: each field is looked for from the line's beginning
        for (i, volume) in volumes[..given.min(16)].iter_mut().enumerate() {
            *volume = line.number(i.saturating_add(2));
        }
        let mut space = [0.0f32; 3840];
        let frame = line.floats(given + 2, &mut space);
        let samples = line.natural(0);
        self.told(
            rt,
            c.analyze_input_audio_each(&volumes[..given.min(16)], samples, frame),
        )
    }

    fn recommended<R: Print>(self, rt: &R, probability: f32, level: Option<f32>) -> Kept {
        let done = self.controller.recommend_input_volume(probability, level);
        let answer = done.answer;
        print::recommendation(rt, answer);
        self.left(rt, done.controller)
    }

    // From here on the whole is shown.
    fn whole<R: Print>(self, rt: &R) -> Kept {
        print::ok(rt);
        Kept {
            controller: self.controller,
            shown: Shown::Whole,
        }
    }

    // All records, and where the whole is shown all the rest before them.
    fn dumped<R: Print>(self, rt: &R) -> Kept {
        match self.shown {
            Shown::Volume => state::print_rings(
                rt,
                self.controller.predictor,
                "",
                Records::All,
                "/",
            ),
            Shown::Whole => {
                print::ok(rt);
                self.print_whole(rt, Records::All);
            }
        }
        self
    }

    // The answer to one line, by its letter. A V without fields is no frame.
    pub fn answer<R: Print>(self, rt: &R, line: Line) -> Kept {
        let c = self.controller;
        match line.letter() {
            b'N' => self.made(rt, InputVolumeController::new(line.number(0), config(line))),
            b'K' => self.made(rt, with_predictor(line)),
            b'O' => self.made(
                rt,
                InputVolumeController::classroom(line.number(0), config(line)),
            ),
            b'A' => self.framed(rt, line, None, Entry::Everybody),
            b'B' => self.framed(rt, line, Some(line.natural(1)), Entry::Everybody),
            b'W' => self.framed(rt, line, Some(line.natural(1)), Entry::WordSpotter),
            b'V' if line.is_alone() => self.whole(rt),
            b'V' => self.framed_each(rt, line),
            b'R' => self.recommended(rt, line.float(0), speech_level(line)),
            b'I' => self.accepted(rt, c.initialize()),
            b'C' => self.accepted(rt, c.handle_capture_output_used_change(line.number(0) == 1)),
            b'D' => self.dumped(rt),
            _ => self,
        }
    }
}
