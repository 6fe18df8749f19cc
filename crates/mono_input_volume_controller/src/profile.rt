// For whom a controller is made: which settings its making takes, of those that the plain making takes.
ghost use Rattle.std.specs.Prelude.{◌≡◌};
ghost use Rattle.mono_input_volume_controller.specs.Profile.{takes};

use crate::config::{Config, in_range, in_unit};

// For everybody, or for group teaching.
#[derive(Clone, Copy)]
pub enum Profile {
    Plain,
    Classroom,
}

// The classroom's six conditions.
fn in_classroom(config: Config) -> bool
    ensures { result ≡ takes Profile.Classroom config }
{
    config.enable_clipping_predictor
        && in_range(20, 70, config.min_input_volume)
        && config.min_input_volume <= config.clipped_level_min
        && config.target_range_min_dbfs <= config.target_range_max_dbfs
        && config.clipped_wait_frames >= 100
        && config.update_input_volume_wait_frames >= 100
        && in_unit(config.clipped_ratio_threshold)
}

pub fn takes(profile: Profile, config: Config) -> bool
    ensures { result ≡ takes profile config }
{
    match profile {
        Profile::Plain => true,
        Profile::Classroom => in_classroom(config),
    }
}
