// A public i32 is taken apart here, once: inside, numbers are unsigned.
ghost use Rattle.std.specs.Prelude.{◌≡◌};
ghost use Rattle.numbers.specs.Natural.{within_of, at_least_of};

// x as a natural number, where it lies from low to high.
pub fn within(low: usize, high: usize, x: i32) -> Option<usize>
    ensures { result ≡ within_of low high x }
{
    let n = usize::try_from(x).ok()?;
    if n < low || high < n {
        return None;
    }
    Some(n)
}

// The most that an i32 holds.
const MAX_I32: usize = 2147483647;

// x as a natural number, where it is at least low. It has no high end but its type's.
pub fn at_least(low: usize, x: i32) -> Option<usize>
    ensures { result ≡ at_least_of low x }
{
    within(low, MAX_I32, x)
}
