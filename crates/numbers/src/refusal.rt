// Why a call says no, and the number it says it with.
ghost use Rattle.std.specs.Prelude.{◌≡◌};
ghost use Rattle.numbers.specs.Refusal.{number_of};

#[derive(Clone, Copy, Debug, PartialEq, Eq)]
pub enum Refusal {
    ChannelCount,
    MinimumVolume,
    ClippedLevelStep,
    WaitFrames,
    TargetRange,
    SpeechThreshold,
    PredictorWindows,
    InputVolume,
    FrameSize,
    EstimateRange,
    RingRange,
    FrameLine,
    PredictorCapacity,
    PredictorLevels,
    FrameLimits,
    ClassroomProfile,
    VolumeCount,
}

impl Refusal {
    pub fn number(self) -> u32
        ensures { result ≡ number_of self }
    {
        match self {
            Refusal::ChannelCount => 1,
            Refusal::MinimumVolume => 2,
            Refusal::ClippedLevelStep => 3,
            Refusal::WaitFrames => 4,
            Refusal::TargetRange => 5,
            Refusal::SpeechThreshold => 6,
            Refusal::PredictorWindows => 7,
            Refusal::InputVolume => 8,
            Refusal::FrameSize => 9,
            Refusal::EstimateRange => 10,
            Refusal::RingRange => 11,
            Refusal::FrameLine => 12,
            Refusal::PredictorCapacity => 14,
            Refusal::PredictorLevels => 15,
            Refusal::FrameLimits => 18,
            Refusal::ClassroomProfile => 19,
            Refusal::VolumeCount => 20,
        }
    }
}
