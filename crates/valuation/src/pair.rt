// The pair of a promise: a lower and an upper number of cents.
ghost use Rattle.std.specs.Prelude.{◌≡◌, Some};
ghost use Rattle.valuation.specs.Enclosure.{PairsEnclose};
ghost use Rattle.valuation.specs.Printed.{pair_text};

use std::fmt;

// How many cents the two numbers of a pair are apart at most.
pub const GREATEST_GAP: u64 = 3;

// The greatest gap, and why it can be relied on: on every lawful basis and under all terms the stated pair of a promise
// encloses its exact value, and is no wider.
pub fn greatest_gap() -> u64
    ensures cents { result ≡ 3 }
    ensures encloses { PairsEnclose }
{
    GREATEST_GAP
}

// The exact value lies between the two.
#[derive(Clone, Copy, PartialEq, Eq, Debug)]
pub struct Pair {
    pub lower: u64,
    pub upper: u64,
}

// A pair is printed as its two numbers.
impl fmt::Display for Pair {
    ghost output = { λ pair. Some (pair_text pair) };

    fn fmt<W: fmt::Write>(&self, f: &mut fmt::Formatter<W>) -> fmt::Result {
        let Pair { lower, upper } = *self;
        write!(f, "{lower} to {upper}")
    }
}
