// Samples as devices give them, put into the order and on the scale of a frame. A caller lends the room, and hands the frame to any entry.
ghost use Rattle.std.specs.Prelude.{◌≡◌, ◌++◌, ◌*◌, ◌≤◌, ◌<◌, length, drop};
ghost use Rattle.agc2.specs.Samples.{channel_of, joined, interleaved_frame, unit_frame, laid};

// A full scale of 1.0 on the 16-bit scale.
const FULL_SCALE: f32 = 32768.0;

// The samples of one channel, moment after moment.
fn take_channel(channels: usize, channel: usize, samples: &[i16], part: &mut [f32])
    requires { (channel < channels) × (length part.old * channels ≤ length samples.now) }
    ensures { part.new ≡ channel_of channels (length part.old) samples.now channel }
{
    for i in 0..part.len() {
        part[i] = samples[i * channels + channel] as f32;
    }
}

// The channels one after another, each of so many moments.
fn separate(channels: usize, moments: usize, samples: &[i16], frame: &mut [f32])
    requires { (moments * channels ≤ length samples.now) × (moments * channels ≤ length frame.old) }
    ensures { frame.new ≡ joined (channel_of channels moments samples.now) channels ++ drop (moments * channels) frame.old }
{
    // The channel's number is what the samples are taken by.
    for channel in 0..channels {
        let from = channel * moments;
        let to = from + moments;
        take_channel(channels, channel, samples, &mut frame[from..to]);
    }
}

// Interleaved samples of 16 bits, moment after moment, as a frame. Samples behind the last whole moment are left out, and without room for all others nothing is written.
pub fn agc2_frame_of_interleaved_i16(channels: usize, samples: &[i16], frame: &mut [f32])
    ensures { frame.new ≡ laid (interleaved_frame channels samples.now) frame.old }
{
    if channels == 0 {
        return;
    }
    let moments = samples.len() / channels;
    // There may be more channels than any loop ends over, but then no moment.
    if moments == 0 {
        return;
    }
    if frame.len() < moments * channels {
        return;
    }
    // Of one channel and of two the compiler takes several samples at once, where it knows how far they stand apart.
    match channels {
        1 => separate(1, moments, samples, frame),
        2 => separate(2, moments, samples, frame),
        _ => separate(channels, moments, samples, frame),
    }
}

// Samples with a full scale of 1.0 as a frame. Without room for all of them nothing is written.
pub fn agc2_frame_of_unit(samples: &[f32], frame: &mut [f32])
    ensures { frame.new ≡ laid (unit_frame samples.now) frame.old }
{
    let count = samples.len();
    if frame.len() < count {
        return;
    }
    for (k, sample) in samples.iter().enumerate() {
        frame[k] = *sample * FULL_SCALE;
    }
}
