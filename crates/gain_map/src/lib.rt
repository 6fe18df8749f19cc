// How the gain rises from each input volume to the next, and the volume that a wanted change of gain leads to. Ports `GAIN_MAP` and the two copies of `compute_volume_update`.
#![tactic(auto)]

ghost use Rattle.std.specs.Prelude.{◌≡◌, pos, neg_ℤ};
ghost use Rattle.numbers.specs.Said.{said};
ghost use Rattle.gain_map.specs.Differences.{word_of, difference};
ghost use Rattle.gain_map.specs.VolumeUpdate.{rise, fall, walk, volume_update_of};

use numbers::natural::within;
use numbers::refusal::Refusal;

// The gains of neighbouring input volumes differ by 0, 1 or 2 dB, so the table is kept as these differences (WebRTC's gain_map_internal.h has the gains): 32 volumes a word,
// 2 bits each, the lowest volume in the lowest bits. A `match`, since an element of a constant array is read from a copy of the whole array made for it; past 7 is no volume's block.
fn packed_differences(block: u8) -> u64
    ensures { result ≡ word_of block }
{
    match block {
        0 => 0x4555_9559_659a_69aa,
        1 => 0x1111_1144_5151_5155,
        2 => 0x0441_0411_0441_1111,
        3 => 0x1010_4041_0410_1041,
        4 => 0x4040_4101_0104_0404,
        5 => 0x1010_1010_1040_4040,
        6 => 0x1010_1010_1010_1010,
        7 => 0x1010_1010_1010_1010,
        _ => 0,
    }
}

// How many dB the gain of the next volume is higher.
fn difference_above(volume: u8) -> u32
    ensures { result ≡ difference volume }
{
    let places = 2 * (volume % 32);
    // The casts of this file are proved to fit; `try_from` would have an arm that never runs.
    ((packed_differences(volume / 32) >> places) & 3) as u32
}

// Up from base, to where the table has risen by wanted or max is met.
fn rise_from(wanted: u32, base: u8, max: u8) -> u8
    ensures { result ≡ rise (pos wanted) base max }
{
    let mut volume = base;
    let mut risen = 0;
    loop {
        if volume >= max {
            break volume;
        }
        if risen >= wanted {
            break volume;
        }
        risen += difference_above(volume);
        volume += 1;
    }
}

// Down from base, to where the table has fallen by wanted or min is met.
fn fall_from(wanted: u32, base: u8, min: u8) -> u8
    ensures { result ≡ fall (neg_ℤ (pos wanted)) base min }
{
    let mut volume = base;
    let mut fallen = 0;
    loop {
        if volume <= min {
            break volume;
        }
        if fallen >= wanted {
            break volume;
        }
        volume -= 1;
        fallen += difference_above(volume);
    }
}

// The walk alone. A u8 is a volume by its type, so nothing is refused.
pub fn walk_from(wanted: i32, volume: u8, min: u8, max: u8) -> u8
    ensures { result ≡ walk wanted volume min max }
{
    let size = wanted.unsigned_abs();
    if wanted > 0 {
        return rise_from(size, volume, max);
    }
    if wanted < 0 {
        return fall_from(size, volume, min);
    }
    volume
}

pub fn compute_volume_update(
    gain_error_db: i32,
    input_volume: i32,
    min_input_volume: i32,
    max_input_volume: i32,
) -> Result<i32, Refusal>
    ensures { said result ≡ said (volume_update_of gain_error_db input_volume min_input_volume max_input_volume) }
{
    let min = within(0, 255, min_input_volume).ok_or(Refusal::MinimumVolume)?;
    let volume = within(0, 255, input_volume).ok_or(Refusal::InputVolume)?;
    let max = within(0, 255, max_input_volume).ok_or(Refusal::EstimateRange)?;
    if max < volume {
        return Err(Refusal::EstimateRange);
    }
    Ok(i32::from(walk_from(gain_error_db, volume as u8, min as u8, max as u8)))
}
