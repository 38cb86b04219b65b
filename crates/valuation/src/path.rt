// The one sum: the present value of amounts along any path, on any basis.
ghost use Rattle.std.specs.Prelude.{◌≡◌, ℕ, ◌*◌, ◌≤◌, List, length, slice_index};
ghost use Rattle.valuation.specs.Fixed.{scale};
ghost use Rattle.valuation.specs.Pair.{running, slack, weight};

use crate::columns::Column;
use crate::fixed::{Part, SCALE, product};
use basis::interface::Basis;

// A path as a valuation runs along it: for each year the discounted chance to be on it a year on, and the year's share.
pub(crate) trait Path<B: Basis> {
    // what the column's two parts hold that this path reads on this basis
    ghost ready: { Self → B → List ℕ → List ℕ → Type 0 };

    ghost survivals: { Self → B → ℕ → ℕ };

    ghost shares: { Self → B → ℕ → ℕ };

    fn survival(&self, basis: &B, year: u32) -> Part
        requires { year ≤ 121 }
        ensures { result.number ≡ survivals self.now basis.now year };

    fn share(&self, basis: &B, column: Column<'_>, year: u32) -> u64
        requires ready { ready self.now basis.now column.widows.now column.later.now }
        requires inside { year ≤ 121 }
        ensures value { result ≡ shares self.now basis.now year }
        ensures modest { result ≤ 250 * scale };
}

// The sum in units of 2^-20 cents, from the last year to the first, and by how much it may fall short: a pair of numbers, as
// the project has all sums answered.
pub(crate) fn run<B: Basis, P: Path<B>>(
    path: &P,
    basis: &B,
    column: Column<'_>,
    amounts: &[u32],
) -> (u64, u64)
    requires ready { P.ready path.now basis.now column.widows.now column.later.now }
    requires few { length amounts.now ≤ 121 }
    requires modest { (k : ℕ) → slice_index amounts.now k ≤ 1000000 }
    ensures low { result.0 ≡ running (P.survivals path.now basis.now) (P.shares path.now basis.now) (λ k. weight (slice_index amounts.now k)) (length amounts.now) 0 }
    ensures short { result.1 ≡ slack (λ k. weight (slice_index amounts.now k)) (length amounts.now) 0 }
{
    let mut low = 0;
    let mut short = 0;
    for (k, amount) in amounts.iter().enumerate().rev() {
        let weight = *amount as u64 * 104_857_600;
        let now = product(weight, path.share(basis, column, k as u32));
        low = now + path.survival(basis, k as u32).of(low);
        short += (weight as u128 * 8_388_608 / SCALE as u128) as u64 + 4;
    }
    (low, short)
}
