// A controller with numbers where it has enums: what passes to C and back, which an enum cannot. In each struct the larger come first, and the sizes add up to
// whole words of eight bytes: no byte of it is a gap, so each is written, and equal states are equal byte for byte.
ghost use Rattle.std.specs.Prelude.{◌≡◌};
ghost use Rattle.input_volume_controller.specs.Plain.{mode_of, mode_number, whole_control, plain_control, whole_predictor, plain_predictor};

use crate::channels::Channels;
use crate::volume_control::VolumeControl;
use clipping_predictor::settings::ClippingPredictorMode;
use clipping_predictor::{ClippingPredictor, MAX_CHANNELS};
use clipping_predictor_level_buffer::ClippingPredictorLevelBuffer;
use mono_input_volume_controller::config::Settings;

#[repr(C)]
#[derive(Clone, Copy)]
pub struct PlainControl {
    pub channels: Channels,
    pub controlling: usize,
    pub settings: Settings,
    pub since: u32,
    pub used: bool,
    // A flag and a number, since the parts of a controller stand in C's memory.
    // whether a volume is applied, and it, or 0
    pub pending: bool,
    pub applied: u8,
    pub volume: u8,
}

// A predictor as it stands in C's memory.
#[repr(C)]
#[derive(Clone, Copy)]
pub struct PlainPredictor {
    pub rings: [ClippingPredictorLevelBuffer; MAX_CHANNELS],
    pub channels: usize,
    pub window: usize,
    pub reference: usize,
    pub delay: usize,
    pub threshold: i32,
    pub margin: i32,
    pub mode: u32,
    // 1 where it is on, 0 where it is off
    pub enabled: u32,
}

// A mode is a number in C, and any bits may stand there; a function, since neither type is of this crate.
pub fn mode_of(n: u32) -> ClippingPredictorMode
    ensures { result ≡ mode_of n }
{
    match n {
        0 => ClippingPredictorMode::ClippingEventPrediction,
        1 => ClippingPredictorMode::AdaptiveStepClippingPeakPrediction,
        _ => ClippingPredictorMode::FixedStepClippingPeakPrediction,
    }
}

pub fn mode_number(mode: ClippingPredictorMode) -> u32
    ensures { result ≡ mode_number mode }
{
    match mode {
        ClippingPredictorMode::ClippingEventPrediction => 0,
        ClippingPredictorMode::AdaptiveStepClippingPeakPrediction => 1,
        ClippingPredictorMode::FixedStepClippingPeakPrediction => 2,
    }
}

// This and the three below are functions, and no impls of From: as impls they are proved too, but each passes its rings by value once more, and a frame then takes
// 36,744 bytes of stack for 23,464 (bindings/c/stack.c), where the header says at most 23,600.
pub fn whole_control(p: PlainControl) -> VolumeControl
    ensures { result ≡ whole_control p }
{
    VolumeControl {
        settings: p.settings,
        channels: p.channels,
        since: p.since,
        used: p.used,
        applied: p.pending.then_some(p.applied),
        volume: p.volume,
        controlling: p.controlling,
    }
}

pub fn plain_control(c: VolumeControl) -> PlainControl
    ensures { result ≡ plain_control c }
{
    PlainControl {
        settings: c.settings,
        channels: c.channels,
        since: c.since,
        used: c.used,
        pending: c.applied.is_some(),
        applied: c.applied.unwrap_or(0),
        volume: c.volume,
        controlling: c.controlling,
    }
}

pub fn whole_predictor(p: PlainPredictor) -> ClippingPredictor
    ensures { result ≡ whole_predictor p }
{
    let rings = p.rings;
    ClippingPredictor {
        rings,
        channels: p.channels,
        settings: clipping_predictor::settings::Settings {
            enabled: p.enabled != 0,
            mode: mode_of(p.mode),
            window: p.window,
            reference: p.reference,
            delay: p.delay,
            threshold: p.threshold,
            margin: p.margin,
        },
    }
}

pub fn plain_predictor(p: ClippingPredictor) -> PlainPredictor
    ensures { result ≡ plain_predictor p }
{
    let rings = p.rings;
    let settings = p.settings;
    PlainPredictor {
        rings,
        channels: p.channels,
        enabled: u32::from(settings.enabled),
        mode: mode_number(settings.mode),
        window: settings.window,
        reference: settings.reference,
        delay: settings.delay,
        threshold: settings.threshold,
        margin: settings.margin,
    }
}
