// What a valuation takes from its terms and from the figures of one year, in fixed-point numbers.
ghost use Rattle.std.specs.Prelude.{◌≡◌, ◌<◌, ◌≤◌};
ghost use Rattle.valuation.specs.Pair.{goes_on, pension_number, stays_on, to_next_year};
ghost use Rattle.valuation.specs.Rates.{discount_number, kept_number, loss_number, paid_number};

use crate::chance::Chance;
use crate::fixed::{Part, fixed};
use crate::terms::Terms;
use basis::interface::Basis;
use basis::kind::{CERTAIN, Kind};

// The terms, copied out since every clause names them, with their numbers: v, K and 1 − K.
#[derive(Clone, Copy)]
pub(crate) struct Rates {
    pub(crate) interest: u32,
    pub(crate) instalments: u32,
    pub(crate) discount: Part,
    pub(crate) loss: Part,
    pub(crate) kept: Part,
    ghost discounted: { discount.number ≡ discount_number interest },
    ghost lost: { loss.number ≡ loss_number interest instalments },
    ghost rest: { kept.number ≡ kept_number interest instalments },
    ghost some: { 0 < instalments },
    ghost few: { instalments ≤ 12 },
}

// K and 1 − K of t instalments, each the sum of its parts of the year.
fn parts_of_year(interest: u64, t: u64) -> (Part, Part)
    requires modest { interest ≤ 2000 }
    requires some { 0 < t }
    requires few { t ≤ 12 }
    ensures loss { result.0.number ≡ loss_number interest t }
    ensures kept { result.1.number ≡ kept_number interest t }
{
    let mut loss = 0;
    let mut rest = 0;
    for m in 0..t {
        let whole = t * (10000 * t + m * interest);
        loss += fixed(m * (10000 + interest), whole);
        rest += fixed(10000 * (t - m), whole);
    }
    (Part { number: loss }, Part { number: rest })
}

impl From<Terms> for Rates {
    ghost from_gives = { λ terms rates. (rates.interest ≡ terms.interest) × (rates.instalments ≡ terms.instalments) };

    fn from(terms: Terms) -> Rates {
        let interest = terms.interest as u64;
        let (loss, kept) = parts_of_year(interest, terms.instalments as u64);
        Rates {
            interest: terms.interest,
            instalments: terms.instalments,
            discount: Part::new(10000, 10000 + interest),
            loss,
            kept,
        }
    }
}

impl Rates {
    // The discounted chance of a life to go on for another year: v·p.
    pub(crate) fn goes_on<B: Basis>(&self, basis: &B, kind: Kind, age: u32) -> Part
        ensures { result.number ≡ goes_on (B.figures basis.now) self.now.interest self.now.instalments kind age }
    {
        self.discount
            .of_part(Chance::of(basis, kind, age).opposite())
    }

    // The discounted chance of an active to be one for another year.
    pub(crate) fn stays_on<B: Basis>(&self, basis: &B, age: u32) -> Part
        ensures { result.number ≡ stays_on (B.figures basis.now) self.now.interest self.now.instalments age }
    {
        let able = CERTAIN - basis.figure(Kind::Invalidity, age);
        let staying = able - basis.figure(Kind::ActiveDeath, age);
        self.discount
            .of_part(Part::new(staying as u64, CERTAIN as u64))
    }

    // T, for one whose discounted chance to draw the pension for another year is given.
    pub(crate) fn paid(&self, survival: Part) -> u64
        ensures { result ≡ paid_number (kept_number self.now.interest self.now.instalments) (loss_number self.now.interest self.now.instalments) survival.number }
    {
        self.kept.number + self.loss.of(survival.number)
    }

    // A year's pension of a population at an age.
    pub(crate) fn pension<B: Basis>(&self, basis: &B, kind: Kind, age: u32) -> u64
        ensures { result ≡ pension_number (B.figures basis.now) self.now.interest self.now.instalments kind age }
    {
        self.paid(self.goes_on(basis, kind, age))
    }

    // The discounted chance to live from mid-year to the year's end: v·half.
    pub(crate) fn to_next_year<B: Basis>(&self, basis: &B, kind: Kind, age: u32) -> Part
        ensures { result.number ≡ to_next_year (B.figures basis.now) self.now.interest self.now.instalments kind age }
    {
        self.discount.of_part(Chance::of(basis, kind, age).half())
    }
}
