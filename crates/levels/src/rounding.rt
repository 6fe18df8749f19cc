// Rust's `x.round() as i32`, from a float's parts.
ghost use Rattle.std.specs.Prelude.{◌≡◌, ◌<◌, ◌^◌};
ghost use Rattle.levels.specs.Rounding.{whole_part, round_of};

use crate::parts::{Parts, take_apart};

// The magnitude of a finite float's fields, to the nearest whole number, halves up; at most 2^31.
fn whole_part(exponent: u32, fraction: u32) -> u32
    requires { (exponent < 255) × (fraction < 2 ^ 23) }
    ensures { result ≡ whole_part exponent fraction }
{
    if exponent < 126 {
        return 0;
    }
    let significand = fraction + 0x80_0000;
    if exponent < 150 {
        let shift = 150 - exponent;
        return (significand + (1u32 << (shift - 1))) >> shift;
    }
    if exponent < 158 {
        return significand << (exponent - 150);
    }
    0x8000_0000
}

// To the nearest whole number, halves away from zero, held to the range of an i32; 0 for a not-a-number.
// From the parts and not by std's `round`: document 01's form.
pub fn round(x: f32) -> i32
    ensures { result ≡ round_of x }
{
    let Some(
        Parts {
            negative,
            exponent,
            fraction,
        },
    ) = take_apart(x)
    else {
        return 0;
    };
    if exponent == 255 {
        return numbers::sign::with_sign(negative, 0x8000_0000);
    }
    numbers::sign::with_sign(negative, whole_part(exponent, fraction))
}
