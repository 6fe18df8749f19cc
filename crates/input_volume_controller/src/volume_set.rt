// The volumes of all channels, one each: taken apart here, once, and whole or not at all. Inside they are bytes.
ghost use Rattle.std.specs.Prelude.{◌≡◌, ◌≤◌};
ghost use Rattle.clipping_predictor.specs.Predictor.{max_channels};
ghost use Rattle.input_volume_controller.specs.Volumes.{equal_volumes, lowest_of};
ghost use Rattle.input_volume_controller.specs.VolumeSet.{levels_of, BytesOf, SetOf};

use clipping_predictor::MAX_CHANNELS;
use numbers::natural::within;

// How many volumes were given, and the volumes by their channels, if all lie from 0 to 255. More than eight are not taken, and no place past the last is used.
#[derive(Clone, Copy)]
pub struct VolumeSet {
    pub levels: Option<[u8; MAX_CHANNELS]>,
    pub count: usize,
}

fn bytes_of(volumes: &[i32]) -> Option<[u8; MAX_CHANNELS]>
    ensures { BytesOf volumes.now result }
{
    if volumes.len() > MAX_CHANNELS {
        return None;
    }
    let mut levels = [0; MAX_CHANNELS];
    for (i, volume) in volumes.iter().enumerate() {
        // The casts of this file are proved to fit; `try_from` would have an arm that never runs.
        levels[i] = within(0, 255, *volume)? as u8;
    }
    Some(levels)
}

// A set as it is lent.
pub fn lent_volumes(volumes: &[i32]) -> VolumeSet
    ensures { SetOf volumes.now result }
{
    VolumeSet {
        levels: bytes_of(volumes),
        count: volumes.len(),
    }
}

// One volume for all channels.
pub fn equal_volumes(volume: i32, channels: usize) -> VolumeSet
    ensures { SetOf (equal_volumes volume channels) result }
{
    let Some(level) = within(0, 255, volume) else {
        return VolumeSet {
            levels: None,
            count: channels,
        };
    };
    VolumeSet {
        levels: Some([level as u8; MAX_CHANNELS]),
        count: channels,
    }
}

// The lowest volume of the first channels.
pub fn lowest(levels: [u8; MAX_CHANNELS], channels: usize) -> u8
    requires { (1 ≤ channels) × (channels ≤ max_channels) }
    ensures { result ≡ lowest_of (levels_of levels channels) }
{
    let mut low = levels[0];
    // by index: the first volume starts the minimum, where a chain would have to begin at a volume of no channel
    for i in 1..channels {
        low = low.min(levels[i]);
    }
    low
}
