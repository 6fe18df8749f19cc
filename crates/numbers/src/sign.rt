// A size with a sign.
ghost use Rattle.std.specs.Prelude.{◌≡◌};
ghost use Rattle.numbers.specs.Sign.{signed};

// A size with a sign, held to the range of an i32.
pub fn with_sign(negative: bool, n: u32) -> i32
    ensures { result ≡ signed negative n }
{
    if negative {
        if n < 0x8000_0000 {
            // Proved to fit; `try_from` would have an arm that never runs.
            0 - (n as i32)
        } else {
            -2147483648
        }
    } else {
        if n < 0x8000_0000 {
            n as i32
        } else {
            2147483647
        }
    }
}
