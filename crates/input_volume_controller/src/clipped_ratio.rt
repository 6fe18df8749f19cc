// The share of clipped samples in the channel that has the most. Ports `compute_clipped_ratio`; the samples are counted where the levels are measured.
ghost use Rattle.std.specs.Prelude.{◌≡◌, ◌≤◌};
ghost use Rattle.clipping_predictor_level_buffer.specs.Level.{max_samples_per_channel};
ghost use Rattle.input_volume_controller.specs.ClippedRatio.{ratio_of};

pub fn compute_clipped_ratio(most: u32, samples: usize) -> f32
    requires { (most ≤ samples) × (samples ≤ max_samples_per_channel) }
    ensures { result ≡ ratio_of most samples }
{
    // Counts of at most 480, which a float holds exactly; From has no f32 of a u32.
    (most as f32) / ((samples as u32) as f32)
}
