// The lines of the predictor.
ghost use Rattle.clipping_predictor.specs.Predictor.{Good};

use crate::line::Line;
use crate::state::Records;
use crate::{print, state};
use clipping_predictor::ClippingPredictor;
use clipping_predictor::settings::{ClippingPredictorConfig, ClippingPredictorMode};

// The predictor as it is kept from line to line, in order.
#[derive(Clone, Copy)]
pub struct Kept {
    pub predictor: ClippingPredictor,
    ghost good: { Good predictor },
}

// A predictor that is off.
pub fn fresh() -> Kept {
    let config = ClippingPredictorConfig {
        enabled: false,
        mode: ClippingPredictorMode::ClippingEventPrediction,
        window_length: 1,
        reference_window_length: 1,
        reference_window_delay: 1,
        clipping_threshold: 0,
        crest_factor_margin: 0,
    };
    let created = clipping_predictor::create_clipping_predictor(1, config);
    Kept {
        predictor: created.predictor,
    }
}

// A function, since no From can be written here: neither type is of this crate.
fn mode(n: i32) -> ClippingPredictorMode {
    match n {
        0 => ClippingPredictorMode::ClippingEventPrediction,
        1 => ClippingPredictorMode::AdaptiveStepClippingPeakPrediction,
        _ => ClippingPredictorMode::FixedStepClippingPeakPrediction,
    }
}

// The mode stands in the first of six fields.
pub fn config(line: Line, enabled: bool, first: u8) -> ClippingPredictorConfig {
    let field = usize::from(first);
    ClippingPredictorConfig {
        enabled,
        mode: mode(line.number(field)),
        window_length: line.number(field + 1),
        reference_window_length: line.number(field + 2),
        reference_window_delay: line.number(field + 3),
        clipping_threshold: line.number(field + 4),
        crest_factor_margin: line.number(field + 5),
    }
}

impl Kept {
    // A refused making leaves the predictor that was there.
    fn made<R: Print>(self, rt: &R, channels: i32, config: ClippingPredictorConfig) -> Kept {
        let created = clipping_predictor::create_clipping_predictor(channels, config);
        let answer = created.answer;
        if !print::accepted(rt, answer) {
            return self;
        }
        let predictor = created.predictor;
        let enabled = predictor.settings.enabled;
        print::show(rt, if enabled { "ok" } else { "off" });
        Kept { predictor }
    }

    // A refused frame changes nothing. Of an accepted one the rings are shown that it entered.
    fn analyzed<R: Print>(self, rt: &R, line: Line) -> Kept {
        let mut space = [0.0f32; 3840];
        let frame = line.floats(0, &mut space);
        let samples = frame.len() / self.predictor.channels;
        let done = self.predictor.analyze(samples, frame);
        let predictor = done.predictor;
        let answer = done.answer;
        if print::accepted(rt, answer) {
            print::ok(rt);
            state::print_rings(rt, predictor, " ", Records::Newest, "");
        }
        Kept { predictor }
    }

    fn emptied<R: Print>(self, rt: &R) -> Kept {
        print::ok(rt);
        Kept {
            predictor: self.predictor.reset(),
        }
    }

    fn estimated<R: Print>(self, rt: &R, line: Line) -> Kept {
        print::estimate(
            rt,
            self.predictor.estimate_clipped_level_step(
                line.number(0),
                line.number(1),
                line.number(2),
                line.number(3),
                line.number(4),
            ),
        );
        self
    }

    // The answer to a line, by its letter.
    pub fn answer<R: Print>(self, rt: &R, line: Line) -> Kept {
        match line.letter() {
            b'P' => self.made(rt, line.number(0), config(line, line.number(1) == 1, 2)),
            b'F' => self.analyzed(rt, line),
            b'X' => self.emptied(rt),
            b'E' => self.estimated(rt, line),
            _ => self,
        }
    }
}
