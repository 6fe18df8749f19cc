// What the calls say, in numbers, with the state that each hands back.
ghost use Rattle.std.specs.Prelude.{◌≡◌};
ghost use Rattle.numbers.specs.Said.{said, accepted};
ghost use Rattle.input_volume_controller.specs.Reply.{analysis_says, recommendation_says};
ghost use Rattle.agc2.specs.Answers.{outcome_number, frame_numbers, volume_numbers, record_of, metrics_of, speech_level_of};

use clipping_predictor_level_buffer::level::Level;
use input_volume_controller::plain::{PlainControl, PlainPredictor};
use numbers::refusal::Refusal;

// All of a controller but its predictor, with the answer to its last recommendation: 1 and the volume, or 0 and 0 for none.
#[repr(C)]
#[derive(Clone, Copy)]
pub struct Agc2Control {
    // A number and the value beside it: C has no Option.
    pub present: u32,
    pub volume: i32,
    pub control: PlainControl,
}

// A controller with the answer to its making or to its last frame: 0 or the refusal's number, and 1 if the frame is marked near. Beside a refused making stands a controller of
// one channel with the default settings.
#[repr(C)]
#[derive(Clone, Copy)]
pub struct Agc2Controller {
    pub refusal: u32,
    pub near: u32,
    pub control: Agc2Control,
    pub predictor: PlainPredictor,
}

// A stored record: 1 and the record, or 0 and zeros where there is none.
#[repr(C)]
#[derive(Clone, Copy)]
pub struct Agc2Record {
    pub present: u32,
    pub average: f32,
    pub max: f32,
    pub clipped: u32,
}

// Metrics over some records: 0 or the refusal's number, and 1 and the metrics, or 0 and zeros where there are none or beside a refusal.
#[repr(C)]
#[derive(Clone, Copy)]
pub struct Agc2Metrics {
    pub refusal: u32,
    pub present: u32,
    pub average: f32,
    pub max: f32,
    pub clipped: u32,
}

// A frame's answer and a recommendation's, without the controller.
#[derive(Clone, Copy)]
pub struct FrameNumbers {
    pub refusal: u32,
    pub near: u32,
}

#[derive(Clone, Copy)]
pub struct VolumeNumbers {
    pub present: u32,
    pub volume: i32,
}

// C's number of an answer: a function, since neither type of it is of this crate.
// Out of line for the stack's sake.
#[inline(never)]
pub fn outcome_number(answer: Result<(), Refusal>) -> u32
    ensures { result ≡ outcome_number (said answer) }
{
    match answer {
        Ok(()) => 0,
        Err(cause) => cause.number(),
    }
}

impl From<Result<bool, Refusal>> for FrameNumbers {
    ghost from_gives = { λ answer r. r ≡ frame_numbers (analysis_says answer) };

    fn from(answer: Result<bool, Refusal>) -> FrameNumbers {
        match answer {
            Ok(near) => FrameNumbers {
                refusal: 0,
                near: u32::from(near),
            },
            Err(cause) => FrameNumbers {
                refusal: cause.number(),
                near: 0,
            },
        }
    }
}

impl From<Option<i32>> for VolumeNumbers {
    ghost from_gives = { λ answer r. r ≡ volume_numbers (recommendation_says answer) };

    fn from(answer: Option<i32>) -> VolumeNumbers {
        match answer {
            Some(volume) => VolumeNumbers { present: 1, volume },
            None => VolumeNumbers {
                present: 0,
                volume: 0,
            },
        }
    }
}

impl From<Option<Level>> for Agc2Record {
    ghost from_gives = { λ stored r. r ≡ record_of stored };

    fn from(stored: Option<Level>) -> Agc2Record {
        match stored {
            Some(level) => Agc2Record {
                present: 1,
                average: level.average,
                max: level.max,
                clipped: level.clipped,
            },
            None => Agc2Record {
                present: 0,
                average: 0.0,
                max: 0.0,
                clipped: 0,
            },
        }
    }
}

// Metrics that are not refused.
fn found_metrics(found: Option<Level>) -> Agc2Metrics
    ensures { result ≡ metrics_of (accepted found) }
{
    match found {
        Some(level) => Agc2Metrics {
            refusal: 0,
            present: 1,
            average: level.average,
            max: level.max,
            clipped: level.clipped,
        },
        None => Agc2Metrics {
            refusal: 0,
            present: 0,
            average: 0.0,
            max: 0.0,
            clipped: 0,
        },
    }
}

impl From<Result<Option<Level>, Refusal>> for Agc2Metrics {
    ghost from_gives = { λ metrics r. r ≡ metrics_of (said metrics) };

    fn from(metrics: Result<Option<Level>, Refusal>) -> Agc2Metrics {
        match metrics {
            Ok(found) => found_metrics(found),
            Err(cause) => Agc2Metrics {
                refusal: cause.number(),
                present: 0,
                average: 0.0,
                max: 0.0,
                clipped: 0,
            },
        }
    }
}

// A speech level, or none where its flag is 0.
pub fn speech_level_of(present: u32, dbfs: f32) -> Option<f32>
    ensures { result ≡ speech_level_of present dbfs }
{
    (present != 0).then_some(dbfs)
}
