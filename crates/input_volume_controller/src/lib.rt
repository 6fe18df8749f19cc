// Recommends the input volume of a capture device. Ports input_volume_controller.rs: `&mut self` is a controller by value that is handed back, and `AudioBuffer` one lent slice,
// channels one after another.
#![tactic(auto)]

ghost use Rattle.std.specs.Prelude.{◌≡◌, [], pos, get_or};
ghost use Rattle.numbers.specs.Said.{said};
ghost use Rattle.clipping_predictor_level_buffer.specs.Ring.{stored_at};
ghost use Rattle.input_volume_controller.specs.Controller.{view_of, Good, base_predictor, CreatedWith, CreatedOf};
ghost use Rattle.input_volume_controller.specs.Profile.{CreatedIn};
ghost use Rattle.input_volume_controller.specs.Reply.{done, recommendation_says};
ghost use Rattle.input_volume_controller.specs.Limits.{plain_limits, spotter_limits};
ghost use Rattle.input_volume_controller.specs.Calls.{recommendation, initialise, capture_switch, Does, AnalyzedOf, AnalyzedEachOf, AnalyzedSetOf};
ghost use Rattle.input_volume_controller.specs.ChannelMetrics.{channel_metrics};

pub use crate::limits::{Limits, PLAIN, SPOTTER, plain_limits, spotter_limits};
pub use crate::making::default_predictor_config;
use crate::outcome::accepted_volumes;
pub use crate::volume_control::VolumeControl;
use crate::volume_control::fresh_control;
pub use crate::volume_set::{VolumeSet, equal_volumes, lent_volumes};
use clipping_predictor::settings::ClippingPredictorConfig;
use clipping_predictor::{ClippingPredictor, create_clipping_predictor};
use clipping_predictor_level_buffer::level::Level;
use mono_input_volume_controller::config::Config;
use mono_input_volume_controller::profile::Profile;
use numbers::refusal::Refusal;

mod channels;
mod clipped_ratio;
mod frame;
mod limits;
mod making;
mod outcome;
pub mod plain;
mod volume_control;
mod volume_set;

// No field says that it is in order: C's memory, which may hold any bits, is read into one, so that this is a clause.
#[derive(Clone, Copy)]
pub struct InputVolumeController {
    pub control: VolumeControl,
    pub predictor: ClippingPredictor,
}

// What making answers. A refusal has a controller of one channel with the default settings beside it, since C's memory is written either way; so the answer stands beside it and not in a Result.
#[derive(Clone, Copy)]
pub struct Created {
    pub answer: Result<(), Refusal>,
    pub controller: InputVolumeController,
}

// What a frame answers: whether it is marked near, or why it is refused. A refusal hands the controller back too, so it stands beside the answer and not in a Result.
#[derive(Clone, Copy)]
pub struct Analyzed {
    pub controller: InputVolumeController,
    pub answer: Result<bool, Refusal>,
}

// The recommended volume, if there is one. No recommendation hands the controller back too, so it stands beside the answer and not in an Option.
#[derive(Clone, Copy)]
pub struct Recommended {
    pub answer: Option<i32>,
    pub controller: InputVolumeController,
}

impl InputVolumeController {
    // With the base's predictor. Tests causes 1 to 6, in that order.
    pub fn new(num_capture_channels: i32, config: Config) -> Created
        ensures { CreatedOf num_capture_channels config result }
    {
        InputVolumeController::in_profile(
            Profile::Plain,
            num_capture_channels,
            config,
            default_predictor_config(),
        )
    }

    // With a predictor of any mode. Tests causes 1 to 6 and then, with the predictor off too, 7, 14 and 15. The switch is the one of the settings.
    pub fn with_predictor(
        num_capture_channels: i32,
        config: Config,
        predictor: ClippingPredictorConfig,
    ) -> Created
        ensures { CreatedWith num_capture_channels config predictor result }
    {
        InputVolumeController::in_profile(Profile::Plain, num_capture_channels, config, predictor)
    }

    // For group teaching, with the base's predictor. Tests causes 1 to 6, and then 19.
    pub fn classroom(num_capture_channels: i32, config: Config) -> Created
        ensures { CreatedIn Profile.Classroom num_capture_channels config base_predictor result }
    {
        InputVolumeController::in_profile(
            Profile::Classroom,
            num_capture_channels,
            config,
            default_predictor_config(),
        )
    }

    // For group teaching, with a predictor of any mode. Tests causes 1 to 6, 7, 14 and 15, and then 19.
    pub fn classroom_with_predictor(
        num_capture_channels: i32,
        config: Config,
        predictor: ClippingPredictorConfig,
    ) -> Created
        ensures { CreatedIn Profile.Classroom num_capture_channels config predictor result }
    {
        InputVolumeController::in_profile(
            Profile::Classroom,
            num_capture_channels,
            config,
            predictor,
        )
    }

    // Within a profile, with a predictor of any mode. Every making comes here.
    pub fn in_profile(
        profile: Profile,
        num_capture_channels: i32,
        config: Config,
        predictor: ClippingPredictorConfig,
    ) -> Created
        ensures { CreatedIn profile num_capture_channels config predictor result }
    {
        let (answer, built) = making::answered(profile, num_capture_channels, config, predictor);
        // Proved to fit; `try_from` would have an arm that never runs.
        let made = create_clipping_predictor(built.channels as i32, built.predictor);
        let rings = made.predictor;
        Created {
            answer,
            controller: InputVolumeController {
                control: fresh_control(built.channels, built.settings),
                predictor: rings,
            },
        }
    }

    // Keeps the rings and the count of frames since clipping.
    pub fn initialize(self) -> InputVolumeController
        requires { Good self }
        ensures { Does self initialise done result }
    {
        let control = self.control;
        let mut c = self;
        c.control = control.initialize();
        c
    }

    pub fn handle_capture_output_used_change(
        self,
        capture_output_used: bool,
    ) -> InputVolumeController
        requires { Good self }
        ensures { Does self (capture_switch capture_output_used) done result }
    {
        let control = self.control;
        let mut c = self;
        c.control = control.handle_capture_output_used_change(capture_output_used);
        c
    }

    // README names four entries for frames, with the original's parameters, so there are four; each is one line over `analyze_within` or `analyze_volumes`.
    // A frame of all channels, one after another, each of `samples_per_channel` samples, with one volume for all. Tests causes 8 and 9, in that order.
    pub fn analyze_input_audio(
        self,
        applied_input_volume: i32,
        samples_per_channel: usize,
        frame: &[f32],
    ) -> Analyzed
        requires { Good self }
        ensures { AnalyzedOf plain_limits self applied_input_volume samples_per_channel frame.now result }
    {
        self.analyze_within(PLAIN, applied_input_volume, samples_per_channel, frame)
    }

    // The same with a volume for each channel, in their order. Tests causes 20, 8 and 9, in that order.
    pub fn analyze_input_audio_each(
        self,
        volumes: &[i32],
        samples_per_channel: usize,
        frame: &[f32],
    ) -> Analyzed
        requires { Good self }
        ensures { AnalyzedEachOf plain_limits self volumes.now samples_per_channel frame.now result }
    {
        self.analyze_volumes(PLAIN, lent_volumes(volumes), samples_per_channel, frame)
    }

    // The word spotter's entry, with one volume for all channels. Tests causes 8, 9 and 18, in that order.
    pub fn spotter_analyze_input_audio(
        self,
        applied_input_volume: i32,
        samples_per_channel: usize,
        frame: &[f32],
    ) -> Analyzed
        requires { Good self }
        ensures { AnalyzedOf spotter_limits self applied_input_volume samples_per_channel frame.now result }
    {
        self.analyze_within(SPOTTER, applied_input_volume, samples_per_channel, frame)
    }

    // The same with a volume for each channel. Tests causes 20, 8, 9 and 18, in that order.
    pub fn spotter_analyze_input_audio_each(
        self,
        volumes: &[i32],
        samples_per_channel: usize,
        frame: &[f32],
    ) -> Analyzed
        requires { Good self }
        ensures { AnalyzedEachOf spotter_limits self volumes.now samples_per_channel frame.now result }
    {
        self.analyze_volumes(SPOTTER, lent_volumes(volumes), samples_per_channel, frame)
    }

    // With one volume for all channels, through an entry with these limits.
    fn analyze_within(
        self,
        most: Limits,
        applied_input_volume: i32,
        samples_per_channel: usize,
        frame: &[f32],
    ) -> Analyzed
        requires { Good self }
        ensures { AnalyzedOf most self applied_input_volume samples_per_channel frame.now result }
    {
        let channels = self.control.channels.count;
        self.analyze_volumes(
            most,
            equal_volumes(applied_input_volume, channels),
            samples_per_channel,
            frame,
        )
    }

    // With volumes that are taken apart. Every frame comes here.
    pub fn analyze_volumes(
        self,
        most: Limits,
        set: VolumeSet,
        samples_per_channel: usize,
        frame: &[f32],
    ) -> Analyzed
        requires { Good self }
        ensures { AnalyzedSetOf most self set samples_per_channel frame.now result }
    {
        let channels = self.control.channels.count;
        match accepted_volumes(most, channels, set, samples_per_channel, frame) {
            Err(cause) => Analyzed {
                controller: self,
                answer: Err(cause),
            },
            Ok(levels) => {
                let control = self.control;
                let predictor = self.predictor;
                let applied = control.set_applied_input_volumes(levels);
                frame::accepted(applied, predictor, samples_per_channel, frame)
            }
        }
    }

    pub fn recommend_input_volume(
        self,
        speech_probability: f32,
        speech_level: Option<f32>,
    ) -> Recommended
        requires { Good self }
        ensures { Does self (recommendation speech_probability speech_level) (recommendation_says result.answer) result.controller }
    {
        let before = self.control;
        let recommended = before.recommend_input_volume(speech_probability, speech_level);
        let answer = recommended.answer;
        let control = recommended.control;
        let mut controller = self;
        controller.control = control;
        Recommended { answer, controller }
    }

    // The controller's volume.
    pub fn recommended_input_volume(self) -> i32
        requires { Good self }
        ensures { result ≡ pos (view_of self).control.volume }
    {
        i32::from(self.control.volume)
    }

    // The i-th record that a channel's ring stores, the newest being the 0th.
    pub fn stored_record(self, channel: usize, i: usize) -> Option<Level>
        requires { Good self }
        ensures { result ≡ stored_at (get_or (view_of self).predictor.rings channel []) i }
    {
        let predictor = self.predictor;
        if predictor.channels <= channel {
            return None;
        }
        let ring = predictor.rings[channel];
        ring.stored_at(i)
    }

    // The metrics over the records of a channel's ring; a channel that is not there stores nothing.
    pub fn compute_partial_metrics(
        self,
        channel: usize,
        delay: i32,
        num_items: i32,
    ) -> Result<Option<Level>, Refusal>
        requires { Good self }
        ensures { said result ≡ said (channel_metrics (view_of self).predictor channel delay num_items) }
    {
        let predictor = self.predictor;
        if predictor.channels <= channel {
            let first = predictor.rings[0];
            return first.reset().compute_partial_metrics(delay, num_items);
        }
        let ring = predictor.rings[channel];
        ring.compute_partial_metrics(delay, num_items)
    }
}
