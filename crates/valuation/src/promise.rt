// A promise, as it is handed in and as a valuation takes it.
ghost use Rattle.std.specs.Prelude.{ℕ, ◌≤◌, length, slice_index};

use crate::benefit::Benefit;

#[derive(Clone, Copy, PartialEq, Eq, Debug)]
pub struct Promise<'a> {
    pub benefit: Benefit,
    pub age: u32,
    // one for each year
    pub amounts: &'a [u32],
}

// One that has passed the checks.
#[derive(Clone, Copy)]
pub(crate) struct Taken<'a> {
    pub(crate) promise: Promise<'a>,
    ghost aged: { promise.age ≤ 120 },
    ghost few: { length promise.amounts.now ≤ 121 },
    ghost modest: { (k : ℕ) → slice_index promise.amounts.now k ≤ 1000000 },
}
