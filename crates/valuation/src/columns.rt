// The working column in its two parts: the widows' annuities, and what an active's retirement or invalidity is worth, a
// value at each age in each.
ghost use Rattle.std.specs.Prelude.{◌≡◌, ℕ, ◌≤◌, length};
ghost use Rattle.valuation.specs.Columns.{Filled, Reads, WidowsFilled, level_of, level_share};
ghost use Rattle.valuation.specs.Pair.{left_number, wid_number, widowed_number};

use crate::chance::Chance;
use crate::fixed::SCALE;
use crate::rates::Rates;
use crate::stream::{Level, Stream};
use basis::interface::Basis;
use basis::kind::Kind;

// How many numbers a part has: one for each age.
pub(crate) const AGES: usize = 121;

// Both parts, lent to a path.
#[derive(Clone, Copy)]
pub(crate) struct Column<'a> {
    pub(crate) widows: &'a [u64],
    pub(crate) later: &'a [u64],
}

// The value at an age, nothing past the last.
pub(crate) fn value_at(part: &[u64], age: usize) -> u64
    ensures { (value : ℕ → ℕ) → Filled value part.now → ((x : ℕ) → 121 ≤ x → value x ≡ 0) → result ≡ value age }
{
    part.get(age).copied().unwrap_or(0)
}

// The basis and the parts are lent to each call, as the one sum lends them, and what a part holds is asked for by one word.
impl Rates {
    // The widow's pension that a death leaves, for a widow aged y.
    fn wid<B: Basis>(&self, basis: &B, widows: &[u64], y: u32) -> u64
        requires { WidowsFilled (B.figures basis.now) self.now.interest self.now.instalments widows.now }
        ensures { result ≡ wid_number (B.figures basis.now) self.now.interest self.now.instalments y }
    {
        let next = value_at(widows, y as usize + 1);
        self.to_next_year(basis, Kind::WidowDeath, y).of(next)
    }

    // The same for whoever dies at an age, married or not.
    pub(crate) fn left<B: Basis>(&self, basis: &B, widows: &[u64], age: u32) -> u64
        requires { WidowsFilled (B.figures basis.now) self.now.interest self.now.instalments widows.now }
        ensures { result ≡ left_number (B.figures basis.now) self.now.interest self.now.instalments age }
    {
        let wid = self.wid(basis, widows, basis.figure(Kind::SpouseAge, age));
        Chance::of(basis, Kind::Married, age).part().of(wid)
    }

    // The share of a population's deaths at an age.
    pub(crate) fn widowed<B: Basis>(&self, basis: &B, widows: &[u64], kind: Kind, age: u32) -> u64
        requires { WidowsFilled (B.figures basis.now) self.now.interest self.now.instalments widows.now }
        ensures { result ≡ widowed_number (B.figures basis.now) self.now.interest self.now.instalments kind age }
    {
        let left = self.left(basis, widows, age);
        Chance::of(basis, kind, age).part().of(left)
    }

    // The yearly share of a stream of amount 1 a year.
    pub(crate) fn level_share<B: Basis>(
        &self,
        basis: &B,
        widows: &[u64],
        stream: Stream,
        age: u32,
    ) -> u64
        requires { Reads (B.figures basis.now) self.now.interest self.now.instalments stream.level widows.now }
        ensures { result ≡ level_share (B.figures basis.now) self.now.interest self.now.instalments stream.population stream.level age }
    {
        match stream.level {
            Level::Annuities => SCALE,
            Level::Pensions => self.pension(basis, stream.population, age),
            Level::Widows => self.widowed(basis, widows, stream.population, age),
        }
    }

    // Puts the value of a stream of amount 1 a year at each age into a part, from the last age down. The loop counts the
    // ages itself, since nothing is known of what is written through a reversed iterator.
    pub(crate) fn fill<B: Basis>(
        &self,
        basis: &B,
        widows: &[u64],
        stream: Stream,
        part: &mut [u64; AGES],
    )
        requires { Reads (B.figures basis.now) self.now.interest self.now.instalments stream.level widows.now }
        ensures { Filled (level_of (B.figures basis.now) self.now.interest self.now.instalments stream.population stream.level) part.new }
    {
        let mut later = 0;
        for age in (0..AGES).rev() {
            let share = self.level_share(basis, widows, stream, age as u32);
            let goes_on = self.goes_on(basis, stream.population, age as u32);
            later = share + goes_on.of(later);
            part[age] = later;
        }
    }
}
