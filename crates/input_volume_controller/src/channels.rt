// The controllers of all channels: one loop makes a call of every channel, one finds the lowest of their volumes, and one whether some channel differs.
ghost use Rattle.std.specs.Prelude.{◌≡◌, ◌≤◌, replicate};
ghost use Rattle.clipping_predictor.specs.Predictor.{max_channels};
ghost use Rattle.mono_input_volume_controller.specs.Config.{Good as GoodSettings};
ghost use Rattle.mono_input_volume_controller.specs.MonoState.{Becomes as BecomesChannel};
ghost use Rattle.mono_input_volume_controller.specs.Mono.{created};
ghost use Rattle.input_volume_controller.specs.Channels.{Good, Becomes, MayCall, KeepsGood, EachCalled, channels_of, each_given, lower_of, aggregate_of};
ghost use Rattle.input_volume_controller.specs.VolumeSet.{levels_of};
ghost use Rattle.input_volume_controller.specs.Differ.{other_volumes, lower_differently};

use clipping_predictor::MAX_CHANNELS;
use mono_input_volume_controller::config::Settings;
use mono_input_volume_controller::mono::{
    MAX_INPUT_VOLUME, MonoInputVolumeController, other_volumes,
};

// One controller for each channel; those past the count are not used.
#[repr(C)]
#[derive(Clone, Copy)]
pub struct Channels {
    // by the channel's number, as C's memory has them
    pub items: [MonoInputVolumeController; MAX_CHANNELS],
    pub count: usize,
}

// The lowest volume of some channels, and the first channel that has it.
#[derive(Clone, Copy)]
pub struct Aggregate {
    pub volume: u8,
    pub channel: usize,
}

// Ports `MonoInputVolumeController::new`, for settings that the controller of all channels has tested.
fn fresh_channel(s: Settings) -> MonoInputVolumeController
    requires { GoodSettings s }
    ensures { BecomesChannel (created s) result }
{
    MonoInputVolumeController {
        floor: u32::from(s.floor),
        wait: s.update_wait,
        frames: 0,
        speech: 0,
        probability: s.speech_probability,
        ratio: s.speech_ratio,
        least: s.least,
        ceiling: MAX_INPUT_VOLUME,
        last: 0,
        volume: 0,
        used: true,
        check: true,
        startup: true,
        first: true,
    }
}

// A channel with a lower volume than those before it takes their place.
fn lower_of(a: Aggregate, volume: u8, channel: usize) -> Aggregate
    ensures { result ≡ lower_of a volume channel }
{
    if volume < a.volume {
        return Aggregate { volume, channel };
    }
    a
}

impl Channels {
    pub fn new(count: usize, s: Settings) -> Channels
        requires { (1 ≤ count) × (count ≤ max_channels) × GoodSettings s }
        ensures { Becomes (replicate count (created s)) result }
    {
        Channels {
            items: [fresh_channel(s); MAX_CHANNELS],
            count,
        }
    }

    // A call of every channel, which is told its place.
    pub(crate) fn each<F: Fn(usize, MonoInputVolumeController) -> MonoInputVolumeController>(
        self,
        call: F,
    ) -> Channels
        requires good { Good self }
        requires may_call { MayCall (F.pre call) }
        requires keeps { KeepsGood (F.post call) }
        ensures { EachCalled (F.post call) self result }
    {
        let mut c = self;
        for i in 0..self.count {
            c.items[i] = call(i, c.items[i]);
        }
        c
    }

    // Each channel gets its own volume.
    pub fn given(self, levels: [u8; MAX_CHANNELS]) -> Channels
        requires { Good self }
        ensures { Becomes (each_given (levels_of levels self.count) (channels_of self)) result }
    {
        self.each(|i, channel| channel.set_stream_analog_level(levels[i]))
    }

    // The lowest of the channels' volumes.
    pub fn aggregate(self) -> Aggregate
        requires { Good self }
        ensures { result ≡ aggregate_of (channels_of self) }
    {
        let mut lowest = Aggregate {
            volume: self.items[0].volume,
            channel: 0,
        };
        // by index: the channel's number is part of the answer
        for i in 1..self.count {
            lowest = lower_of(lowest, self.items[i].volume, i);
        }
        lowest
    }

    // Whether two steps of a clipping leave some channel different.
    pub fn lower_differently(self, step: u8, other: u8) -> bool
        requires { Good self }
        ensures { result ≡ lower_differently step other (channels_of self) }
    {
        let one = self.each(|_, channel| channel.handle_clipping(step));
        one.differ_from(self.each(|_, channel| channel.handle_clipping(other)))
    }

    // Whether a channel has other volumes than the same one of as many others.
    fn differ_from(self, others: Channels) -> bool
        requires { Good self × (others.count ≡ self.count) }
        ensures { result ≡ other_volumes (channels_of self) (channels_of others) }
    {
        (0..self.count).any(|i| other_volumes(self.items[i], others.items[i]))
    }
}
