// One channel's controller, the settings that it is made from, and the speech error that it acts on. The first parts of input_volume_controller.rs.
#![tactic(auto)]

pub mod config;
pub mod mono;
pub mod profile;
pub mod speech_level;
