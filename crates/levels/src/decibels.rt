// Sums and comparisons of levels, in whole thousandths of a dB, with IEEE 754's infinities and not-a-number.
ghost use Rattle.std.specs.Prelude.{◌≡◌, Some};
ghost use Rattle.levels.specs.Decibels.{plus, minus, compared, equal, text_of, near, Combined};
ghost use Rattle.levels.specs.Order.{equal_laws, order_laws};

use std::cmp::Ordering;
use std::fmt;
use std::ops::{Add, Sub};

// A level, or a sum or difference of levels. No Option or Result of a number: the infinities and the not-a-number are levels too, and add as IEEE 754 says.
#[derive(Clone, Copy)]
pub enum Decibels {
    Finite(i32),
    PlusInfinity,
    MinusInfinity,
    NotANumber,
}

// How far apart two finite sides may lie and still be near, in thousandths.
pub const NEAR_DISTANCE: u32 = 6;

// Held to the range of an i32, which no sum of levels reaches: the contract says what bounds it.
impl Add for Decibels {
    type Output = Decibels;

    ghost add_gives = { λ a b r. Combined a b (plus a b) r };

    fn add(self, b: Decibels) -> Decibels {
        match (self, b) {
            (Decibels::Finite(x), Decibels::Finite(y)) => Decibels::Finite(x.saturating_add(y)),
            (Decibels::PlusInfinity, Decibels::Finite(_) | Decibels::PlusInfinity)
            | (Decibels::Finite(_), Decibels::PlusInfinity) => Decibels::PlusInfinity,
            (Decibels::MinusInfinity, Decibels::Finite(_) | Decibels::MinusInfinity)
            | (Decibels::Finite(_), Decibels::MinusInfinity) => Decibels::MinusInfinity,
            _ => Decibels::NotANumber,
        }
    }
}

// Held as a sum is.
impl Sub for Decibels {
    type Output = Decibels;

    ghost sub_gives = { λ a b r. Combined a b (minus a b) r };

    fn sub(self, b: Decibels) -> Decibels {
        match (self, b) {
            (Decibels::Finite(x), Decibels::Finite(y)) => Decibels::Finite(x.saturating_sub(y)),
            (Decibels::PlusInfinity, Decibels::Finite(_) | Decibels::MinusInfinity)
            | (Decibels::Finite(_), Decibels::MinusInfinity) => Decibels::PlusInfinity,
            (Decibels::MinusInfinity, Decibels::Finite(_) | Decibels::PlusInfinity)
            | (Decibels::Finite(_), Decibels::PlusInfinity) => Decibels::MinusInfinity,
            _ => Decibels::NotANumber,
        }
    }
}

impl PartialEq for Decibels {
    ghost eq = { equal };

    ghost laws = { equal_laws };

    #[tactic(auto, unfolding(crate::specs::Decibels::equal))]
    fn eq(&self, b: &Decibels) -> bool {
        self.partial_cmp(b) == Some(Ordering::Equal)
    }
}

impl PartialOrd for Decibels {
    ghost partial_cmp = { compared };

    ghost laws = { order_laws };

    #[tactic(auto, using(crate::proofs::Places::above_itself, crate::proofs::Places::below_itself, crate::proofs::Places::before_nan), unfolding(crate::specs::Decibels::compared))]
    fn partial_cmp(&self, b: &Decibels) -> Option<Ordering> {
        match (*self, *b) {
            (Decibels::NotANumber, _) | (_, Decibels::NotANumber) => None,
            (Decibels::Finite(x), Decibels::Finite(y)) => Some(x.cmp(&y)),
            (Decibels::PlusInfinity, Decibels::PlusInfinity)
            | (Decibels::MinusInfinity, Decibels::MinusInfinity) => Some(Ordering::Equal),
            (Decibels::MinusInfinity, _) | (_, Decibels::PlusInfinity) => Some(Ordering::Less),
            (Decibels::PlusInfinity, _) | (_, Decibels::MinusInfinity) => Some(Ordering::Greater),
        }
    }
}

impl fmt::Display for Decibels {
    ghost output = { λ level. Some (text_of level) };

    fn fmt<W: fmt::Write>(&self, f: &mut fmt::Formatter<W>) -> fmt::Result {
        match *self {
            Decibels::Finite(x) => write!(f, "{x}"),
            Decibels::PlusInfinity => f.write_str("inf"),
            Decibels::MinusInfinity => f.write_str("-inf"),
            Decibels::NotANumber => f.write_str("nan"),
        }
    }
}

// Both sides are finite, and at most NEAR_DISTANCE apart.
pub fn are_near(a: Decibels, b: Decibels) -> bool
    ensures { result ≡ near a b }
{
    match a - b {
        Decibels::Finite(x) => x.unsigned_abs() <= NEAR_DISTANCE,
        _ => false,
    }
}
