// One channel's controller, by value: each call hands the new state back. Ports `MonoInputVolumeController`; its `new` stands with the controller of all channels, which tests the settings.
ghost use Rattle.std.specs.Prelude.{◌≡◌, not, ◌+◌, ◌≤◌};
ghost use Rattle.mono_input_volume_controller.specs.MonoState.{max_wait, Good, Becomes};
ghost use Rattle.mono_input_volume_controller.specs.Mono.{initialized, check_asked, handled_capture_output_used_change, with_stream_analog_level, is_users, taken_from_user, with_input_volume, handled_clipping};
ghost use Rattle.mono_input_volume_controller.specs.SameVolumes.{same_volumes};
ghost use Rattle.mono_input_volume_controller.specs.MonoProcess.{stays_muted, checked_volume_and_reset, settled, held_error, updated_input_volume, corrected, speech_frames, may_act, waited, counted, processed};

// The highest input volume.
pub const MAX_INPUT_VOLUME: u8 = 255;

// How far the volume may lie from the last one before it is taken as the user's.
const VOLUME_QUANTIZATION_SLACK: u8 = 25;

// The largest error, either way, that is corrected at once, in dB.
const MAX_ABS_RMS_ERROR_DBFS: i32 = 15;

// Each field stands under its name in the source. Whole words come first, then bytes, eight of them, so that no gap is left; so the floor, a volume, is a word.
// No field says that it is in order: C's memory, which may hold any bits, is read into one, so that this is a clause.
#[repr(C)]
#[derive(Clone, Copy)]
pub struct MonoInputVolumeController {
    // min_input_volume_after_clipping
    pub floor: u32,
    // update_input_volume_wait_frames
    pub wait: u32,
    // frames_since_update_input_volume
    pub frames: u32,
    // speech_frames_since_update_input_volume
    pub speech: u32,
    // speech_probability_threshold
    pub probability: f32,
    // speech_ratio_threshold
    pub ratio: f32,
    // min_input_volume
    pub least: u8,
    // max_input_volume
    pub ceiling: u8,
    // last_recommended_input_volume
    pub last: u8,
    // recommended_input_volume
    pub volume: u8,
    // capture_output_used
    pub used: bool,
    // check_volume_on_next_process
    pub check: bool,
    // startup
    pub startup: bool,
    // is_first_frame
    pub first: bool,
}

// Whether a check is to be made: where it was, and where capture is switched on from off.
#[tactic(auto, unfolding(crate::specs::Mono::check_asked))]
fn check_asked(check: bool, used: bool, on: bool) -> bool
    ensures { result ≡ check_asked check used on }
{
    check || (on && !used)
}

// Whether a volume lies so far from the last one that it is the user's.
#[tactic(auto, unfolding(crate::specs::Mono::is_users))]
fn is_users(last: u8, here: u8) -> bool
    ensures { result ≡ is_users last here }
{
    last.abs_diff(here) > VOLUME_QUANTIZATION_SLACK
}

// A volume of 0 is left alone, but not at the startup.
#[tactic(auto, unfolding(crate::specs::MonoProcess::stays_muted))]
fn stays_muted(startup: bool, volume: u8) -> bool
    ensures { result ≡ stays_muted startup volume }
{
    volume == 0 && !startup
}

// An error held to what is corrected at once.
#[tactic(auto, unfolding(crate::specs::MonoProcess::held_error))]
fn hold_error(error: i32) -> i32
    ensures { result ≡ held_error error }
{
    error.clamp(-MAX_ABS_RMS_ERROR_DBFS, MAX_ABS_RMS_ERROR_DBFS)
}

// Whether a volume of two states differs.
#[tactic(auto, unfolding(crate::specs::SameVolumes::same_volumes))]
pub fn other_volumes(a: MonoInputVolumeController, b: MonoInputVolumeController) -> bool
    ensures { result ≡ not (same_volumes a b) }
{
    a.ceiling != b.ceiling || a.last != b.last || a.volume != b.volume
}

impl MonoInputVolumeController {
    // Startup, last and recommended volume stay.
    pub fn initialize(self) -> MonoInputVolumeController
        requires { Good self }
        ensures { Becomes (initialized self) result }
    {
        let mut m = self;
        m.ceiling = MAX_INPUT_VOLUME;
        m.used = true;
        m.check = true;
        m.frames = 0;
        m.speech = 0;
        m.first = true;
        m
    }

    // Output that is used again asks for a check.
    pub fn handle_capture_output_used_change(
        self,
        capture_output_used: bool,
    ) -> MonoInputVolumeController
        requires { Good self }
        ensures { Becomes (handled_capture_output_used_change capture_output_used self) result }
    {
        let mut m = self;
        m.check = check_asked(self.check, self.used, capture_output_used);
        m.used = capture_output_used;
        m
    }

    // The volume that is applied.
    pub fn set_stream_analog_level(self, input_volume: u8) -> MonoInputVolumeController
        requires { Good self }
        ensures { Becomes (with_stream_analog_level input_volume self) result }
    {
        let mut m = self;
        m.volume = input_volume;
        m
    }

    // Clipping lowers the ceiling, and the volume with it, down to the floor.
    pub fn handle_clipping(self, clipped_level_step: u8) -> MonoInputVolumeController
        requires { Good self }
        ensures { Becomes (handled_clipping clipped_level_step self) result }
    {
        // Proved to fit; `try_from` would have an arm that never runs.
        let floor = self.floor as u8;
        let last = self.last;
        let mut m = self;
        m.ceiling = floor.max(self.ceiling.saturating_sub(clipped_level_step));
        if last <= floor {
            return m;
        }
        let new_volume = floor.max(last.saturating_sub(clipped_level_step));
        let mut n = m.set_input_volume(new_volume);
        n.frames = 0;
        n.speech = 0;
        n.first = false;
        n
    }

    // One frame: the check comes first, where one is asked for, and no frame is a first one after it.
    pub fn process(
        self,
        rms_error_db: Option<i32>,
        speech_probability: f32,
    ) -> MonoInputVolumeController
        requires { Good self }
        ensures { Becomes (processed rms_error_db speech_probability self) result }
    {
        let m = self.settle();
        let speech = m.speech_frames(speech_probability);
        let mut n = m.count_frame(speech, rms_error_db);
        n.first = false;
        n
    }

    // The user's volume becomes the last one, and lifts a ceiling below it.
    fn taken_from_user(self) -> MonoInputVolumeController
        requires { Good self }
        ensures { Becomes (taken_from_user self) result }
    {
        let mut m = self;
        m.ceiling = self.ceiling.max(self.volume);
        m.last = self.volume;
        m.frames = 0;
        m.speech = 0;
        m.first = false;
        m
    }

    // Sets a volume, unless the user has moved it in the meantime.
    fn set_input_volume(self, new_volume: u8) -> MonoInputVolumeController
        requires { Good self }
        ensures { Becomes (with_input_volume new_volume self) result }
    {
        let here = self.volume;
        let last = self.last;
        if here == 0 {
            return self;
        }
        if is_users(last, here) {
            return self.taken_from_user();
        }
        let new = new_volume.min(self.ceiling);
        if new == last {
            return self;
        }
        let mut m = self;
        m.volume = new;
        m.last = new;
        m
    }

    // Starts from the volume that is applied, raised to the minimum.
    fn check_volume_and_reset(self) -> MonoInputVolumeController
        requires { Good self }
        ensures { Becomes (checked_volume_and_reset self) result }
    {
        if stays_muted(self.startup, self.volume) {
            return self;
        }
        let input_volume = self.volume.max(self.least);
        let mut m = self;
        m.volume = input_volume;
        m.last = input_volume;
        m.startup = false;
        m.frames = 0;
        m.speech = 0;
        m.first = true;
        m
    }

    // The check, where it is asked for, once.
    fn settle(self) -> MonoInputVolumeController
        requires { Good self }
        ensures { Becomes (settled self) result }
    {
        if self.check {
            let mut m = self;
            m.check = false;
            return m.check_volume_and_reset();
        }
        self
    }

    // The speech frames, with this one.
    fn speech_frames(self, speech_probability: f32) -> u32
        requires { Good self }
        ensures { result ≡ speech_frames speech_probability self }
    {
        if self.probability <= speech_probability {
            return self.speech + 1;
        }
        self.speech
    }

    // Whether there was speech enough in the wait, and this is not a first frame.
    #[tactic(auto, using(crate::proofs::Paths::count_held), unfolding(crate::specs::MonoProcess::may_act))]
    fn may_act(self, speech: u32) -> bool
        requires { Good self × (speech ≤ max_wait) }
        ensures { result ≡ may_act speech self }
    {
        // From has no f32 of a u32.
        !self.first && self.ratio <= (speech as f32) / (self.wait as f32)
    }

    // One frame more; at the end of the wait the counts start anew, and the error may act.
    fn count_frame(self, speech: u32, rms_error_db: Option<i32>) -> MonoInputVolumeController
        requires { Good self × (speech ≤ self.frames + 1) }
        ensures { Becomes (counted rms_error_db speech self) result }
    {
        let frames = self.frames + 1;
        let mut m = self;
        if frames < self.wait {
            m.frames = frames;
            m.speech = speech;
            return m;
        }
        let enough = self.may_act(speech);
        m.frames = 0;
        m.speech = 0;
        m.end_wait(enough, rms_error_db)
    }

    // The counts have started anew; with speech enough the error acts.
    fn end_wait(self, enough: bool, rms_error_db: Option<i32>) -> MonoInputVolumeController
        requires { Good self }
        ensures { Becomes (waited enough rms_error_db self) result }
    {
        if enough {
            return self.correct(rms_error_db);
        }
        self
    }

    // No error changes nothing.
    fn correct(self, rms_error_db: Option<i32>) -> MonoInputVolumeController
        requires { Good self }
        ensures { Becomes (corrected rms_error_db self) result }
    {
        match rms_error_db {
            None => self,
            Some(error) => self.update_input_volume(error),
        }
    }

    // From the last volume, by the gain table.
    fn update_input_volume(self, rms_error_db: i32) -> MonoInputVolumeController
        requires { Good self }
        ensures { Becomes (updated_input_volume rms_error_db self) result }
    {
        let held = hold_error(rms_error_db);
        if held == 0 {
            return self;
        }
        let volume = gain_map::walk_from(held, self.last, self.least, MAX_INPUT_VOLUME);
        self.set_input_volume(volume)
    }
}
