// A frame line, taken apart. The samples go into a slice that the caller lends, each decoded once, straight to its place.
ghost use Rattle.std.specs.Prelude.{◌≡◌, ◌+◌, ◌≤◌, length};
ghost use Rattle.frame_lines.specs.Samples.{signed16, samples_in};
ghost use Rattle.frame_lines.specs.Line.{is_well_formed};
ghost use Rattle.frame_lines.specs.Parsed.{sample_of, ParsedAs};
ghost use Rattle.frame_lines.specs.Reading.{word_at, level_field, head_of, ReadAs};

use crate::digits::{all_digits, digits_before, number_of_four, number_of_two};

// A longer line is malformed.
pub const MOST_CHARACTERS: usize = 2000;

// The most samples that a line of that length holds.
pub const MOST_SAMPLES: usize = 496;

// Where the samples start behind a dash, and
const AFTER_DASH: usize = 14;

// behind the bits of a level.
const AFTER_BITS: usize = 21;

// What a line says: volume, speech probability, speech level, and how many samples it has.
#[derive(Clone, Copy)]
pub struct Frame {
    pub volume: u8,
    pub probability: f32,
    pub level: Option<f32>,
    pub count: usize,
}

// The speech level, and the place where the samples start: behind the blank that follows it.
#[derive(Clone, Copy)]
struct Level {
    level: Option<f32>,
    start: usize,
}

// The fields before the samples: volume, speech probability, speech level, and the place where the samples start.
#[derive(Clone, Copy)]
struct Head {
    volume: u8,
    probability: f32,
    level: Option<f32>,
    start: usize,
}

// The number of eight digits from a place on.
fn word_at(line: &[u8], at: usize) -> Option<u32>
    requires { at + 8 ≤ length line.now }
    ensures { result ≡ word_at line.now at }
{
    if !all_digits(&line[at..at + 8]) {
        return None;
    }
    let high = u32::from(number_of_four(line, at));
    let low = u32::from(number_of_four(line, at + 4));
    Some(high * 65536 + low)
}

// The level, and the blank behind it.
fn level_field(line: &[u8]) -> Option<Level>
    requires { 14 ≤ length line.now }
    ensures { result ≡ level_field line.now }
{
    if line[12] == b'-' {
        if line[13] != b' ' {
            return None;
        }
        return Some(Level {
            level: None,
            start: AFTER_DASH,
        });
    }
    if line.len() < AFTER_BITS {
        return None;
    }
    if line[20] != b' ' {
        return None;
    }
    let bits = word_at(line, 12)?;
    Some(Level {
        level: Some(levels::bits::from_bits(bits)),
        start: AFTER_BITS,
    })
}

// All fields before the samples. No line in order is shorter than up to the blank behind a dash.
fn read_head(line: &[u8]) -> Option<Head>
    ensures { result ≡ head_of line.now }
{
    if line.len() < AFTER_DASH {
        return None;
    }
    if !all_digits(&line[0..2]) {
        return None;
    }
    let volume = number_of_two(line, 0);
    if line[2] != b' ' {
        return None;
    }
    if line[11] != b' ' {
        return None;
    }
    let bits = word_at(line, 3)?;
    let probability = levels::bits::from_bits(bits);
    let field = level_field(line)?;
    Some(Head {
        volume,
        probability,
        level: field.level,
        start: field.start,
    })
}

// Sixteen bits as a sample.
fn sample(bits: u16) -> f32
    ensures { result ≡ sample_of (signed16 bits) }
{
    f32::from(bits.cast_signed())
}

// How many samples a text has: it goes by fours of digits up to the first other character. Most texts have none, which is told sooner than where it stands.
fn sample_count(text: &[u8]) -> usize
    ensures { result ≡ length (samples_in text.now) }
{
    if all_digits(text) {
        return text.len() / 4;
    }
    digits_before(text) / 4
}

// The samples of a text, as far as there is room for them, and how many it has. No test is left between them.
fn read_samples(text: &[u8], samples: &mut [f32]) -> usize
    ensures { ReadAs text.now samples.old samples.new result }
{
    let count = sample_count(text);
    // By place: four characters of the text are one sample.
    for n in 0..count.min(samples.len()) {
        let at = n * 4;
        samples[n] = sample(number_of_four(text, at));
    }
    count
}

// Whether a line, without its line feed, is well formed.
pub fn is_well_formed(line: &[u8]) -> bool
    ensures { result ≡ is_well_formed line.now }
{
    if line.len() > MOST_CHARACTERS {
        return false;
    }
    let Some(head) = read_head(line) else {
        return false;
    };
    let text = &line[head.start..];
    if text.len() % 4 != 0 {
        return false;
    }
    all_digits(text)
}

// A line, without its line feed, or nothing where it is malformed. Its samples become the first of the lent slice, as far as that has room;
// those of a malformed line as far as they go, where the other fields are in order.
pub fn parse(line: &[u8], samples: &mut [f32]) -> Option<Frame>
    ensures { ParsedAs line.now samples.old samples.new result }
{
    if line.len() > MOST_CHARACTERS {
        return None;
    }
    let head = read_head(line)?;
    let text = &line[head.start..];
    let count = read_samples(text, samples);
    if count * 4 < text.len() {
        return None;
    }
    Some(Frame {
        volume: head.volume,
        probability: head.probability,
        level: head.level,
        count,
    })
}
