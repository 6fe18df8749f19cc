// The static library for C and Rust: each call of `agc2` under its name, with its clauses. A crate is a library or a static library, and `agc2` is the library.
#![tactic(auto)]

ghost use Rattle.std.specs.Prelude.{◌≡◌, [], pos, get_or};
ghost use Rattle.agc2.specs.Layout.{layout};
ghost use Rattle.numbers.specs.Flag.{is_set};
ghost use Rattle.numbers.specs.Said.{said};
ghost use Rattle.clipping_predictor_level_buffer.specs.Ring.{stored_at};
ghost use Rattle.input_volume_controller.specs.Controller.{Good, view_of, base_predictor};
ghost use Rattle.input_volume_controller.specs.Control.{control_of, Good as GoodControl};
ghost use Rattle.input_volume_controller.specs.Limits.{plain_limits, spotter_limits};
ghost use Rattle.input_volume_controller.specs.Plain.{whole_control};
ghost use Rattle.input_volume_controller.specs.Reply.{done};
ghost use Rattle.input_volume_controller.specs.Calls.{initialise, capture_switch, ControlDoes};
ghost use Rattle.input_volume_controller.specs.ChannelMetrics.{channel_metrics};
ghost use Rattle.agc2.specs.Settings.{config_of, predictor_config_of, profile_of, in_numbers, predictor_in_numbers};
ghost use Rattle.agc2.specs.Answers.{record_of, metrics_of, speech_level_of};
ghost use Rattle.agc2.specs.Whole.{whole_of};
ghost use Rattle.agc2.specs.Calls.{CreatedIn, CreatedWith, CreatedOf, AnalyzedOf, AnalyzedEachOf, RecommendedOf};
ghost use Rattle.agc2.specs.Samples.{interleaved_frame, unit_frame, laid};
ghost use Rattle.mono_input_volume_controller.specs.Config.{defaults};
ghost use Rattle.agc2.specs.Version.{version};

use agc2::answers::{Agc2Control, Agc2Controller, Agc2Metrics, Agc2Record};
use agc2::layout::Agc2Layout;
use agc2::settings::{Agc2Config, Agc2PredictorConfig};
use input_volume_controller::plain::PlainControl;

#[unsafe(no_mangle)]
pub extern "C" fn agc2_layout_1() -> Agc2Layout
    ensures { result ≡ layout }
{
    agc2::layout::agc2_layout_1()
}

// Within a profile, 0 for everybody and any other number for group teaching, with any predictor: causes 1 to 6, then, with the predictor off too, 7, 14 and 15, and then 19. Every making comes here.
#[unsafe(no_mangle)]
pub extern "C" fn agc2_new_in_profile_by_value(
    profile: u32,
    num_capture_channels: i32,
    config: Agc2Config,
    predictor: Agc2PredictorConfig,
) -> Agc2Controller
    ensures { CreatedIn (profile_of profile) num_capture_channels (config_of config) (predictor_config_of predictor) result }
{
    agc2::agc2_new_in_profile_by_value(profile, num_capture_channels, config, predictor)
}

// For everybody, with any predictor: causes 1 to 6, and then, with the predictor off too, 7, 14 and 15.
#[unsafe(no_mangle)]
pub extern "C" fn agc2_new_with_predictor_by_value(
    num_capture_channels: i32,
    config: Agc2Config,
    predictor: Agc2PredictorConfig,
) -> Agc2Controller
    ensures { CreatedWith num_capture_channels (config_of config) (predictor_config_of predictor) result }
{
    agc2::agc2_new_with_predictor_by_value(num_capture_channels, config, predictor)
}

// For everybody, with the base's predictor: causes 1 to 6.
#[unsafe(no_mangle)]
pub extern "C" fn agc2_new_by_value(num_capture_channels: i32, config: Agc2Config) -> Agc2Controller
    ensures { CreatedOf num_capture_channels (config_of config) result }
{
    agc2::agc2_new_by_value(num_capture_channels, config)
}

#[unsafe(no_mangle)]
pub extern "C" fn agc2_initialize_by_value(control: PlainControl) -> PlainControl
    requires { GoodControl (whole_control control) }
    ensures { ControlDoes (whole_control control) initialise done (whole_control result) }
{
    agc2::agc2_initialize_by_value(control)
}

// Off at 0, and on at any other number.
#[unsafe(no_mangle)]
pub extern "C" fn agc2_handle_capture_output_used_change_by_value(
    control: PlainControl,
    capture_output_used: u32,
) -> PlainControl
    requires { GoodControl (whole_control control) }
    ensures { ControlDoes (whole_control control) (capture_switch (is_set capture_output_used)) done (whole_control result) }
{
    agc2::agc2_handle_capture_output_used_change_by_value(control, capture_output_used)
}

// With one volume for all channels. Causes 8 and 9.
#[unsafe(no_mangle)]
pub extern "C" fn agc2_analyze_input_audio_into(
    controller: &mut Agc2Controller,
    applied_input_volume: i32,
    samples_per_channel: usize,
    samples: &[f32],
)
    requires { Good (whole_of controller.old) }
    ensures { AnalyzedOf plain_limits (whole_of controller.old) applied_input_volume samples_per_channel samples.now controller.new }
{
    agc2::agc2_analyze_input_audio_into(
        controller,
        applied_input_volume,
        samples_per_channel,
        samples,
    )
}

// With a volume for each channel. Causes 20, 8 and 9.
#[unsafe(no_mangle)]
pub extern "C" fn agc2_analyze_input_audio_each_into(
    controller: &mut Agc2Controller,
    volumes: &[i32],
    samples_per_channel: usize,
    samples: &[f32],
)
    requires { Good (whole_of controller.old) }
    ensures { AnalyzedEachOf plain_limits (whole_of controller.old) volumes.now samples_per_channel samples.now controller.new }
{
    agc2::agc2_analyze_input_audio_each_into(controller, volumes, samples_per_channel, samples)
}

// The word spotter's entry, with one volume for all channels. Causes 8, 9 and 18.
#[unsafe(no_mangle)]
pub extern "C" fn agc2_spotter_analyze_input_audio_into(
    controller: &mut Agc2Controller,
    applied_input_volume: i32,
    samples_per_channel: usize,
    samples: &[f32],
)
    requires { Good (whole_of controller.old) }
    ensures { AnalyzedOf spotter_limits (whole_of controller.old) applied_input_volume samples_per_channel samples.now controller.new }
{
    agc2::agc2_spotter_analyze_input_audio_into(
        controller,
        applied_input_volume,
        samples_per_channel,
        samples,
    )
}

// The same with a volume for each channel. Causes 20, 8, 9 and 18.
#[unsafe(no_mangle)]
pub extern "C" fn agc2_spotter_analyze_input_audio_each_into(
    controller: &mut Agc2Controller,
    volumes: &[i32],
    samples_per_channel: usize,
    samples: &[f32],
)
    requires { Good (whole_of controller.old) }
    ensures { AnalyzedEachOf spotter_limits (whole_of controller.old) volumes.now samples_per_channel samples.now controller.new }
{
    agc2::agc2_spotter_analyze_input_audio_each_into(
        controller,
        volumes,
        samples_per_channel,
        samples,
    )
}

// No speech level where its flag is 0.
#[unsafe(no_mangle)]
pub extern "C" fn agc2_recommend_input_volume_into(
    control: &mut Agc2Control,
    speech_probability: f32,
    has_speech_level: u32,
    speech_level_dbfs: f32,
)
    requires { GoodControl (whole_control control.old.control) }
    ensures { RecommendedOf (whole_control control.old.control) speech_probability (speech_level_of has_speech_level speech_level_dbfs) control.new }
{
    agc2::agc2_recommend_input_volume_into(
        control,
        speech_probability,
        has_speech_level,
        speech_level_dbfs,
    )
}

// The controller's volume.
#[unsafe(no_mangle)]
pub extern "C" fn agc2_recommended_input_volume_by_value(control: PlainControl) -> i32
    ensures { result ≡ pos (control_of (whole_control control)).volume }
{
    agc2::agc2_recommended_input_volume_by_value(control)
}

// The i-th record that a channel's ring stores, the newest being the 0th.
#[unsafe(no_mangle)]
pub extern "C" fn agc2_stored_record_by_value(
    controller: Agc2Controller,
    channel: usize,
    i: usize,
) -> Agc2Record
    requires { Good (whole_of controller) }
    ensures { result ≡ record_of (stored_at (get_or (view_of (whole_of controller)).predictor.rings channel []) i) }
{
    agc2::agc2_stored_record_by_value(controller, channel, i)
}

// The metrics over `num_items` records that a channel's ring stores, behind the newest `delay`. Refuses with 11.
#[unsafe(no_mangle)]
pub extern "C" fn agc2_compute_partial_metrics_by_value(
    controller: Agc2Controller,
    channel: usize,
    delay: i32,
    num_items: i32,
) -> Agc2Metrics
    requires { Good (whole_of controller) }
    ensures { result ≡ metrics_of (said (channel_metrics (view_of (whole_of controller)).predictor channel delay num_items)) }
{
    agc2::agc2_compute_partial_metrics_by_value(controller, channel, delay, num_items)
}

// Interleaved samples of 16 bits, moment after moment, as a frame. Samples behind the last whole moment are left out, and without room for all others nothing is written.
#[unsafe(no_mangle)]
pub extern "C" fn agc2_frame_of_interleaved_i16(channels: usize, samples: &[i16], frame: &mut [f32])
    ensures { frame.new ≡ laid (interleaved_frame channels samples.now) frame.old }
{
    agc2::samples::agc2_frame_of_interleaved_i16(channels, samples, frame)
}

// Samples with a full scale of 1.0 as a frame. Without room for all of them nothing is written.
#[unsafe(no_mangle)]
pub extern "C" fn agc2_frame_of_unit(samples: &[f32], frame: &mut [f32])
    ensures { frame.new ≡ laid (unit_frame samples.now) frame.old }
{
    agc2::samples::agc2_frame_of_unit(samples, frame)
}

// The source's default settings.
#[unsafe(no_mangle)]
pub extern "C" fn agc2_default_config() -> Agc2Config
    ensures { result ≡ in_numbers defaults }
{
    agc2::settings::agc2_default_config()
}

// The base's predictor, which `agc2_new_by_value` takes.
#[unsafe(no_mangle)]
pub extern "C" fn agc2_default_predictor_config() -> Agc2PredictorConfig
    ensures { result ≡ predictor_in_numbers base_predictor }
{
    agc2::settings::agc2_default_predictor_config()
}

#[unsafe(no_mangle)]
pub extern "C" fn agc2_version() -> u32
    ensures { result ≡ version }
{
    agc2::version::agc2_version()
}
