// What a place of the stock has.
ghost use Rattle.std.specs.Prelude.{◌<◌, ◌≤◌};

use valuation::pair::Pair;

// A key and the pair of its promise.
#[derive(Clone, Copy, PartialEq, Eq, Debug)]
pub(crate) struct Record {
    pub(crate) key: u32,
    pub(crate) pair: Pair,
    ghost ordered: { pair.lower ≤ pair.upper },
    ghost small: { pair.upper < 1125899906842624 },
}
