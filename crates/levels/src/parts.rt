// A float is taken apart by shifts and masks on its bits. Rounding, magnitude and level start from the parts.
ghost use Rattle.std.specs.Prelude.{◌≡◌};
ghost use Rattle.levels.specs.FloatParts.{parts_of, magnitude_of, magnitude_bits_of};

// The sign bit, the eight exponent bits and the 23 fraction bits.
#[derive(Clone, Copy)]
pub struct Parts {
    pub negative: bool,
    pub exponent: u32,
    pub fraction: u32,
}

// A not-a-number has none that are known.
pub fn take_apart(x: f32) -> Option<Parts>
    ensures { result ≡ parts_of x }
{
    if x.is_nan() {
        return None;
    }
    let bits = x.to_bits();
    Some(Parts {
        negative: (bits >> 31) == 1,
        exponent: (bits >> 23) & 0xff,
        fraction: bits & 0x7f_ffff,
    })
}

// x without its sign, from its parts and not by std's `abs`: document 01's form.
pub fn magnitude(x: f32) -> f32
    ensures { result ≡ magnitude_of x }
{
    let Some(
        Parts {
            exponent,
            fraction,
            ..
        },
    ) = take_apart(x)
    else {
        return x;
    };
    f32::from_bits((exponent << 23) + fraction)
}

// The bits of x without the sign bit, and 0 for a not-a-number. Their order is that of the magnitudes, so a largest magnitude can be
// found as a largest whole number.
pub fn magnitude_bits(x: f32) -> u32
    ensures { result ≡ magnitude_bits_of x }
{
    if x.is_nan() {
        return 0;
    }
    x.to_bits() & 0x7fff_ffff
}
