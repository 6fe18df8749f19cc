// The level of a number, in whole thousandths of a dB, from its parts. One function of the power serves peaks and mean squares.
ghost use Rattle.std.specs.Prelude.{◌≡◌, false, ◌+◌, ◌-◌, ◌*◌, ◌^◌, ◌≤◌, ◌<◌};
ghost use Rattle.levels.specs.Level.{digits, decimal, level_of, d, h, dbfs, Leveled};

use crate::decibels::Decibels;
use crate::parts::{Parts, take_apart};

// The level of 1 against full scale, in thousandths of a dB.
pub const MIN_LEVEL_DBFS: i32 = -90310;

// The 13 binary digits after the point of the binary logarithm of start / 2^31.
fn logarithm(start: u64) -> u64
    requires { (2 ^ 31 ≤ start) × (start < 2 ^ 32) }
    ensures { result ≡ digits 13 start }
{
    // A fold would carry the pair of x and `found`, and be no plainer.
    let mut x = start;
    let mut found: u64 = 0;
    for _ in 0..13u32 {
        let y = x * x >> 31;
        let b = y >> 32;
        x = y >> b;
        found = 2 * found + b;
    }
    found
}

// The decimal logarithm of a float to a power, from the fields of a float from 1 up.
fn from_one(power: u64, exponent: u32, fraction: u32) -> u64
    requires { (power ≤ 20000) × (127 ≤ exponent) × (exponent < 255) × (fraction < 2 ^ 23) }
    ensures { result ≡ decimal power ((exponent - 127) * 2 ^ 13 + digits 13 ((fraction + 2 ^ 23) * 2 ^ 8)) }
{
    let whole = u64::from(exponent - 127);
    let start = u64::from(fraction + 0x80_0000) << 8;
    let binary = whole * 8192 + logarithm(start);
    (power * binary * 643 + 17498111) / 17498112
}

// The decimal logarithm of v to a power, for v above 1; 0 at 1 or below. From the parts: document 01's form.
fn level(power: u64, v: f32) -> Decibels
    requires { power ≤ 20000 }
    ensures { Leveled (level_of power v) result }
{
    let Some(
        Parts {
            negative,
            exponent,
            fraction,
        },
    ) = take_apart(v)
    else {
        return Decibels::NotANumber;
    };
    if negative {
        return Decibels::Finite(0);
    }
    if exponent < 127 {
        return Decibels::Finite(0);
    }
    if exponent == 255 {
        return Decibels::PlusInfinity;
    }
    // A cast, since it is proved to fit: `try_from` would have an arm that never runs.
    Decibels::Finite(from_one(power, exponent, fraction) as i32)
}

// d of a peak. It and h are two names of one function: the power says which, and claims speak of both.
pub fn peak_level(v: f32) -> Decibels
    ensures { Leveled (d v) result }
{
    level(20000, v)
}

// h of a mean square.
pub fn mean_square_level(a: f32) -> Decibels
    ensures { Leveled (h a) result }
{
    level(10000, a)
}

// The level of a peak against full scale.
pub fn float_s16_to_dbfs(v: f32) -> Decibels
    ensures { result ≡ dbfs v }
{
    peak_level(v) + Decibels::Finite(MIN_LEVEL_DBFS)
}
