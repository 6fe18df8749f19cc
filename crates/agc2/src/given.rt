// The volumes that a frame comes with, before its controller's channels are counted.
ghost use Rattle.input_volume_controller.specs.VolumeSet.{SetOf};
ghost use Rattle.agc2.specs.Given.{volumes_for};

use input_volume_controller::{VolumeSet, equal_volumes, lent_volumes};

#[derive(Clone, Copy)]
pub enum Volumes<'a> {
    // the same for all channels
    One(i32),
    // one for each of them
    Each(&'a [i32]),
}

// The set for so many channels. Out of line for the stack's sake.
#[inline(never)]
pub fn set_for(volumes: Volumes<'_>, channels: usize) -> VolumeSet
    ensures { SetOf (volumes_for channels volumes.entry) result }
{
    match volumes {
        Volumes::One(volume) => equal_volumes(volume, channels),
        Volumes::Each(volumes) => lent_volumes(volumes),
    }
}
