// All of the controller but its predictor. It is small, and is passed by value where the predictor's rings, which are large, need not be.
ghost use Rattle.std.specs.Prelude.{◌≡◌, ◌≤◌, ◌<◌, None, Some};
ghost use Rattle.clipping_predictor.specs.Predictor.{max_channels};
ghost use Rattle.mono_input_volume_controller.specs.Config.{Good as GoodSettings};
ghost use Rattle.mono_input_volume_controller.specs.SpeechLevel.{GoodTargets, rms_error_of};
ghost use Rattle.input_volume_controller.specs.Controller.{fresh_control};
ghost use Rattle.input_volume_controller.specs.Channels.{channels_of, Good as GoodChannels};
ghost use Rattle.input_volume_controller.specs.VolumeSet.{levels_of};
ghost use Rattle.input_volume_controller.specs.Control.{with_channels, with_applied, control_of, Good, Becomes};
ghost use Rattle.input_volume_controller.specs.ControlCalls.{raised_for, aggregated, with_applied_input_volumes, lower_channels, one_frame_more, process_channels};
ghost use Rattle.input_volume_controller.specs.Reply.{done, recommendation_says};
ghost use Rattle.input_volume_controller.specs.Calls.{recommendation, initialise, capture_switch, ControlDoes};

use crate::channels::Channels;
use crate::volume_set::lowest;
use clipping_predictor::MAX_CHANNELS;
use mono_input_volume_controller::config::Settings;
use mono_input_volume_controller::speech_level::get_speech_level_rms_error_db;

#[derive(Clone, Copy)]
pub struct VolumeControl {
    // channel_controllers
    pub channels: Channels,
    // channel_controlling_gain
    pub controlling: usize,
    pub settings: Settings,
    // frames_since_clipped
    pub since: u32,
    // capture_output_used
    pub used: bool,
    // applied_input_volume, as long as no recommendation has answered it
    pub applied: Option<u8>,
    // recommended_input_volume
    pub volume: u8,
}

// No recommendation hands the control back too, so it stands beside the answer.
// What a recommendation answers.
#[derive(Clone, Copy)]
pub struct ControlRecommended {
    pub answer: Option<i32>,
    pub control: VolumeControl,
}

// The lowest volume, raised to the minimum where a volume above 0 is pending.
fn raised_for(applied: Option<u8>, least: u8, volume: u8) -> u8
    ensures { result ≡ raised_for applied least volume }
{
    match applied {
        None => volume,
        Some(0) => volume,
        Some(_) => volume.max(least),
    }
}

// The speech error for the targets of the settings, which are in range.
fn speech_error(level: Option<f32>, min: i32, max: i32) -> Option<i32>
    requires { GoodTargets min max }
    ensures { result ≡ rms_error_of level min max }
{
    get_speech_level_rms_error_db(level, min, max).unwrap_or(None)
}

// The control of a controller that is just made, with settings that were tested.
pub fn fresh_control(count: usize, s: Settings) -> VolumeControl
    requires { (1 ≤ count) × (count ≤ max_channels) × GoodSettings s }
    ensures { Becomes (fresh_control s count) result }
{
    VolumeControl {
        settings: s,
        channels: Channels::new(count, s),
        since: s.clipped_wait,
        used: true,
        applied: None,
        volume: 0,
        controlling: 0,
    }
}

impl VolumeControl {
    fn with_applied(self, applied: Option<u8>) -> VolumeControl
        requires { Good self }
        ensures { Becomes (with_applied applied (control_of self)) result }
    {
        VolumeControl {
            settings: self.settings,
            channels: self.channels,
            since: self.since,
            used: self.used,
            applied,
            volume: self.volume,
            controlling: self.controlling,
        }
    }

    fn aggregate_channel_levels(self) -> VolumeControl
        requires { Good self }
        ensures { Becomes (aggregated (control_of self)) result }
    {
        let lowest = self.channels.aggregate();
        let mut c = self;
        c.volume = raised_for(self.applied, self.settings.least, lowest.volume);
        c.controlling = lowest.channel;
        c
    }

    // The channels are as a call has left them; the volume is taken while one volume is pending, and another is left so. The struct is made once: this is done for every frame.
    fn with_channels(
        self,
        channels: Channels,
        pending: Option<u8>,
        left: Option<u8>,
    ) -> VolumeControl
        requires { Good self × GoodChannels channels }
        ensures { Becomes (with_applied left (aggregated (with_applied pending (with_channels (channels_of channels) (control_of self))))) result }
    {
        let lowest = channels.aggregate();
        VolumeControl {
            settings: self.settings,
            channels,
            since: self.since,
            used: self.used,
            applied: left,
            volume: raised_for(pending, self.settings.least, lowest.volume),
            controlling: lowest.channel,
        }
    }

    // Each channel takes its own volume, and the lowest is pending from now on. Out of line for the stack's sake.
    #[inline(never)]
    pub fn set_applied_input_volumes(self, levels: [u8; MAX_CHANNELS]) -> VolumeControl
        requires { Good self }
        ensures { Becomes (with_applied_input_volumes (levels_of levels self.channels.count) (control_of self)) result }
    {
        let channels = self.channels;
        let applied = lowest(levels, channels.count);
        self.with_channels(channels.given(levels), Some(applied), Some(applied))
    }

    // The volume is taken with the applied one still pending.
    pub fn initialize(self) -> VolumeControl
        requires { Good self }
        ensures { ControlDoes self initialise done result }
    {
        let mut c = self;
        c.channels = self.channels.each(|_, channel| channel.initialize());
        c.used = true;
        c.aggregate_channel_levels().with_applied(None)
    }

    pub fn handle_capture_output_used_change(self, capture_output_used: bool) -> VolumeControl
        requires { Good self }
        ensures { ControlDoes self (capture_switch capture_output_used) done result }
    {
        let mut c = self;
        c.channels = self.channels.each(|_, channel| channel.handle_capture_output_used_change(
            capture_output_used,
        ));
        c.used = capture_output_used;
        c
    }

    // The speech error acts on every channel, and the applied volume is answered.
    fn process_channels(self, speech_probability: f32, speech_level: Option<f32>) -> VolumeControl
        requires { Good self }
        ensures { Becomes (with_applied None (process_channels speech_probability speech_level (control_of self))) result }
    {
        let error = speech_error(
            speech_level,
            self.settings.min_target,
            self.settings.max_target,
        );
        self.with_channels(
            self.channels
                .each(|_, channel| channel.process(error, speech_probability)),
            self.applied,
            None,
        )
    }

    // A recommendation answers the pending volume; with capture off it repeats that, and the volume stays pending.
    pub fn recommend_input_volume(
        self,
        speech_probability: f32,
        speech_level: Option<f32>,
    ) -> ControlRecommended
        requires { Good self }
        ensures { ControlDoes self (recommendation speech_probability speech_level) (recommendation_says result.answer) result.control }
    {
        let applied = self.applied;
        let Some(volume) = applied else {
            return ControlRecommended {
                answer: None,
                control: self,
            };
        };
        if !self.used {
            return ControlRecommended {
                answer: Some(i32::from(volume)),
                control: self.aggregate_channel_levels(),
            };
        }
        let processed = self.process_channels(speech_probability, speech_level);
        ControlRecommended {
            answer: Some(i32::from(processed.volume)),
            control: processed,
        }
    }
}

// Clipping lowers every channel and restarts the wait. Out of line for the stack's sake.
#[inline(never)]
pub fn lower_channels(control: VolumeControl, step: u8) -> VolumeControl
    requires { Good control }
    ensures { Becomes (lower_channels step (control_of control)) result }
{
    let mut c = control;
    c.channels = control
        .channels
        .each(|_, channel| channel.handle_clipping(step));
    c.since = 0;
    c.aggregate_channel_levels()
}

// A frame within the wait.
pub fn one_frame_more(control: VolumeControl) -> VolumeControl
    requires { Good control × (control.since < control.settings.clipped_wait) }
    ensures { Becomes (one_frame_more (control_of control)) result }
{
    let mut c = control;
    c.since = control.since + 1;
    c
}
