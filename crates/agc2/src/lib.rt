// The static library: the calls of `input_volume_controller` for C and Rust, with numbers for answers. A frame changes a controller in its place, and a
// recommendation its control. The calls that leave the predictor alone take the control alone: the rings, which are most of a controller, are not copied for them.
#![tactic(auto)]

ghost use Rattle.std.specs.Prelude.{◌≡◌, [], pos, get_or};
ghost use Rattle.numbers.specs.Flag.{is_set};
ghost use Rattle.numbers.specs.Said.{said};
ghost use Rattle.clipping_predictor_level_buffer.specs.Ring.{stored_at};
ghost use Rattle.input_volume_controller.specs.Controller.{Good, view_of};
ghost use Rattle.input_volume_controller.specs.Control.{control_of};
ghost use Rattle.input_volume_controller.specs.Control.{Good as GoodControl};
ghost use Rattle.input_volume_controller.specs.Limits.{plain_limits, spotter_limits};
ghost use Rattle.input_volume_controller.specs.Plain.{whole_control};
ghost use Rattle.input_volume_controller.specs.Reply.{done};
ghost use Rattle.input_volume_controller.specs.Calls.{initialise, capture_switch, ControlDoes};
ghost use Rattle.input_volume_controller.specs.ChannelMetrics.{channel_metrics};
ghost use Rattle.agc2.specs.Settings.{config_of, predictor_config_of, profile_of};
ghost use Rattle.agc2.specs.Answers.{record_of, metrics_of, speech_level_of};
ghost use Rattle.agc2.specs.Whole.{whole_of, beside_of};
ghost use Rattle.agc2.specs.Calls.{CreatedIn, CreatedWith, CreatedOf, AnalyzedGivenOf, AnalyzedOf, AnalyzedEachOf, RecommendedOf};

use crate::answers::{
    Agc2Control, Agc2Controller, Agc2Metrics, Agc2Record, FrameNumbers, VolumeNumbers,
};
use crate::given::Volumes;
use crate::settings::{Agc2Config, Agc2PredictorConfig};
use clipping_predictor::settings::ClippingPredictorConfig;
use input_volume_controller::plain::{
    PlainControl, plain_control, plain_predictor, whole_control, whole_predictor,
};
use input_volume_controller::{InputVolumeController, Limits, PLAIN, SPOTTER};
use mono_input_volume_controller::config::Config;

pub mod answers;
mod given;
pub mod layout;
pub mod samples;
pub mod settings;
pub mod version;

// The controller that the numbers stand for.
fn whole(c: Agc2Controller) -> InputVolumeController
    ensures { result ≡ whole_of c }
{
    let answered = c.control;
    let control = answered.control;
    let predictor = c.predictor;
    InputVolumeController {
        control: whole_control(control),
        predictor: whole_predictor(predictor),
    }
}

// A controller in numbers, beside an answer.
fn beside(refusal: u32, near: u32, c: InputVolumeController) -> Agc2Controller
    ensures { result ≡ beside_of refusal near c }
{
    let control = c.control;
    let predictor = c.predictor;
    Agc2Controller {
        refusal,
        near,
        control: Agc2Control {
            present: 0,
            volume: 0,
            control: plain_control(control),
        },
        predictor: plain_predictor(predictor),
    }
}

// Within a profile, 0 for everybody and any other number for group teaching, with any predictor: causes 1 to 6, then, with the predictor off too, 7, 14 and 15, and then 19. Every making comes here, and it goes into each, for the stack's sake.
#[inline(always)]
pub fn agc2_new_in_profile_by_value(
    profile: u32,
    num_capture_channels: i32,
    config: Agc2Config,
    predictor: Agc2PredictorConfig,
) -> Agc2Controller
    ensures { CreatedIn (profile_of profile) num_capture_channels (config_of config) (predictor_config_of predictor) result }
{
    let made = InputVolumeController::in_profile(
        settings::profile_of(profile),
        num_capture_channels,
        Config::from(config),
        ClippingPredictorConfig::from(predictor),
    );
    let answer = made.answer;
    let controller = made.controller;
    beside(answers::outcome_number(answer), 0, controller)
}

// For everybody, with any predictor: causes 1 to 6, and then, with the predictor off too, 7, 14 and 15.
pub fn agc2_new_with_predictor_by_value(
    num_capture_channels: i32,
    config: Agc2Config,
    predictor: Agc2PredictorConfig,
) -> Agc2Controller
    ensures { CreatedWith num_capture_channels (config_of config) (predictor_config_of predictor) result }
{
    agc2_new_in_profile_by_value(0, num_capture_channels, config, predictor)
}

// For everybody, with the base's predictor: causes 1 to 6.
pub fn agc2_new_by_value(num_capture_channels: i32, config: Agc2Config) -> Agc2Controller
    ensures { CreatedOf num_capture_channels (config_of config) result }
{
    agc2_new_with_predictor_by_value(
        num_capture_channels,
        config,
        settings::agc2_default_predictor_config(),
    )
}

pub fn agc2_initialize_by_value(control: PlainControl) -> PlainControl
    requires { GoodControl (whole_control control) }
    ensures { ControlDoes (whole_control control) initialise done (whole_control result) }
{
    plain_control(whole_control(control).initialize())
}

// Off at 0, and on at any other number.
pub fn agc2_handle_capture_output_used_change_by_value(
    control: PlainControl,
    capture_output_used: u32,
) -> PlainControl
    requires { GoodControl (whole_control control) }
    ensures { ControlDoes (whole_control control) (capture_switch (is_set capture_output_used)) done (whole_control result) }
{
    let on = capture_output_used != 0;
    plain_control(whole_control(control).handle_capture_output_used_change(on))
}

// A frame, with the answer to the one before it still beside the controller. It goes into each entry, for the stack's sake.
#[inline(always)]
fn analyzed(
    before: Agc2Controller,
    most: Limits,
    volumes: Volumes<'_>,
    samples_per_channel: usize,
    samples: &[f32],
) -> Agc2Controller
    requires { Good (whole_of before) }
    ensures { AnalyzedGivenOf most (whole_of before) volumes.entry samples_per_channel samples.now result }
{
    let c = whole(before);
    let set = given::set_for(volumes, c.control.channels.count);
    let analyzed = c.analyze_volumes(most, set, samples_per_channel, samples);
    let answer = analyzed.answer;
    let handed = analyzed.controller;
    let numbers = FrameNumbers::from(answer);
    beside(numbers.refusal, numbers.near, handed)
}

// The same in the controller's place. Every exported frame comes here by the controller's address: each pass by value would copy its rings.
fn analyzed_into(
    controller: &mut Agc2Controller,
    most: Limits,
    volumes: Volumes<'_>,
    samples_per_channel: usize,
    samples: &[f32],
)
    requires { Good (whole_of controller.old) }
    ensures { AnalyzedGivenOf most (whole_of controller.old) volumes.entry samples_per_channel samples.now controller.new }
{
    *controller = analyzed(*controller, most, volumes, samples_per_channel, samples);
}

// With one volume for all channels. Causes 8 and 9.
pub fn agc2_analyze_input_audio_into(
    controller: &mut Agc2Controller,
    applied_input_volume: i32,
    samples_per_channel: usize,
    samples: &[f32],
)
    requires { Good (whole_of controller.old) }
    ensures { AnalyzedOf plain_limits (whole_of controller.old) applied_input_volume samples_per_channel samples.now controller.new }
{
    analyzed_into(
        controller,
        PLAIN,
        Volumes::One(applied_input_volume),
        samples_per_channel,
        samples,
    )
}

// With a volume for each channel. Causes 20, 8 and 9.
pub fn agc2_analyze_input_audio_each_into(
    controller: &mut Agc2Controller,
    volumes: &[i32],
    samples_per_channel: usize,
    samples: &[f32],
)
    requires { Good (whole_of controller.old) }
    ensures { AnalyzedEachOf plain_limits (whole_of controller.old) volumes.now samples_per_channel samples.now controller.new }
{
    analyzed_into(
        controller,
        PLAIN,
        Volumes::Each(volumes),
        samples_per_channel,
        samples,
    )
}

// The word spotter's entry, with one volume for all channels. Causes 8, 9 and 18.
pub fn agc2_spotter_analyze_input_audio_into(
    controller: &mut Agc2Controller,
    applied_input_volume: i32,
    samples_per_channel: usize,
    samples: &[f32],
)
    requires { Good (whole_of controller.old) }
    ensures { AnalyzedOf spotter_limits (whole_of controller.old) applied_input_volume samples_per_channel samples.now controller.new }
{
    analyzed_into(
        controller,
        SPOTTER,
        Volumes::One(applied_input_volume),
        samples_per_channel,
        samples,
    )
}

// The same with a volume for each channel. Causes 20, 8, 9 and 18.
pub fn agc2_spotter_analyze_input_audio_each_into(
    controller: &mut Agc2Controller,
    volumes: &[i32],
    samples_per_channel: usize,
    samples: &[f32],
)
    requires { Good (whole_of controller.old) }
    ensures { AnalyzedEachOf spotter_limits (whole_of controller.old) volumes.now samples_per_channel samples.now controller.new }
{
    analyzed_into(
        controller,
        SPOTTER,
        Volumes::Each(volumes),
        samples_per_channel,
        samples,
    )
}

// A recommendation, with the answer to the one before it still beside the control.
fn recommended(
    before: Agc2Control,
    speech_probability: f32,
    has_speech_level: u32,
    speech_level_dbfs: f32,
) -> Agc2Control
    requires { GoodControl (whole_control before.control) }
    ensures { RecommendedOf (whole_control before.control) speech_probability (speech_level_of has_speech_level speech_level_dbfs) result }
{
    let control = before.control;
    let level = answers::speech_level_of(has_speech_level, speech_level_dbfs);
    let recommended = whole_control(control).recommend_input_volume(speech_probability, level);
    let answer = recommended.answer;
    let handed = recommended.control;
    let numbers = VolumeNumbers::from(answer);
    Agc2Control {
        present: numbers.present,
        volume: numbers.volume,
        control: plain_control(handed),
    }
}

// No speech level where its flag is 0.
pub fn agc2_recommend_input_volume_into(
    control: &mut Agc2Control,
    speech_probability: f32,
    has_speech_level: u32,
    speech_level_dbfs: f32,
)
    requires { GoodControl (whole_control control.old.control) }
    ensures { RecommendedOf (whole_control control.old.control) speech_probability (speech_level_of has_speech_level speech_level_dbfs) control.new }
{
    *control = recommended(
        *control,
        speech_probability,
        has_speech_level,
        speech_level_dbfs,
    );
}

// The controller's volume.
pub fn agc2_recommended_input_volume_by_value(control: PlainControl) -> i32
    ensures { result ≡ pos (control_of (whole_control control)).volume }
{
    i32::from(control.volume)
}

// The i-th record that a channel's ring stores, the newest being the 0th.
pub fn agc2_stored_record_by_value(
    controller: Agc2Controller,
    channel: usize,
    i: usize,
) -> Agc2Record
    requires { Good (whole_of controller) }
    ensures { result ≡ record_of (stored_at (get_or (view_of (whole_of controller)).predictor.rings channel []) i) }
{
    Agc2Record::from(whole(controller).stored_record(channel, i))
}

// The metrics over `num_items` records that a channel's ring stores, behind the newest `delay`. Refuses with 11.
pub fn agc2_compute_partial_metrics_by_value(
    controller: Agc2Controller,
    channel: usize,
    delay: i32,
    num_items: i32,
) -> Agc2Metrics
    requires { Good (whole_of controller) }
    ensures { result ≡ metrics_of (said (channel_metrics (view_of (whole_of controller)).predictor channel delay num_items)) }
{
    Agc2Metrics::from(whole(controller).compute_partial_metrics(channel, delay, num_items))
}
