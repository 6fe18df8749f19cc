// The most that an entry for frames takes.
ghost use Rattle.std.specs.Prelude.{◌≡◌};
ghost use Rattle.input_volume_controller.specs.Limits.{plain_limits, spotter_limits, is_within};

use clipping_predictor::MAX_CHANNELS;
use clipping_predictor_level_buffer::level::MAX_SAMPLES_PER_CHANNEL;

// Channels, and samples of each.
#[derive(Clone, Copy)]
pub struct Limits {
    pub channels: usize,
    pub samples: usize,
}

// What everybody may pass.
pub const PLAIN: Limits = Limits {
    channels: MAX_CHANNELS,
    samples: MAX_SAMPLES_PER_CHANNEL,
};

// What the word spotter may pass.
pub const SPOTTER: Limits = Limits {
    channels: 2,
    samples: 160,
};

// That the constants are the definition's.
pub fn plain_limits() -> Limits
    ensures { result ≡ plain_limits }
{
    PLAIN
}

pub fn spotter_limits() -> Limits
    ensures { result ≡ spotter_limits }
{
    SPOTTER
}

pub fn is_within(most: Limits, channels: usize, samples: usize) -> bool
    ensures { result ≡ is_within most channels samples }
{
    channels <= most.channels && samples <= most.samples
}
