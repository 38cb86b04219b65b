// An active, followed to the final age.
ghost use Rattle.std.specs.Prelude.{◌≡◌, ◌+◌, ◌≤◌};
ghost use Rattle.basis.specs.declared.kind.Kind.TheVariants.{InvalidDeath};
ghost use Rattle.valuation.specs.ActivePath.{ActiveReads, active_share, below_number, final_number};
ghost use Rattle.valuation.specs.Columns.{Filled, WidowsFilled, level_of};
ghost use Rattle.valuation.specs.Pair.{stays_on, turning_invalid_number, turning_invalid_widow_number};
ghost use Rattle.valuation.specs.declared.stream.Level.TheVariants.{Annuities, Widows};

use crate::benefit::Benefit;
use crate::chance::Chance;
use crate::columns::{Column, value_at};
use crate::fixed::Part;
use crate::path::Path;
use crate::rates::Rates;
use basis::interface::Basis;
use basis::kind::Kind;

impl Rates {
    // Invalidity in a year: the yearly pension from the next year on.
    fn turning_invalid<B: Basis>(&self, basis: &B, later: &[u64], age: u32) -> u64
        requires { Filled (level_of (B.figures basis.now) self.now.interest self.now.instalments InvalidDeath Annuities) later.now }
        ensures { result ≡ turning_invalid_number (B.figures basis.now) self.now.interest self.now.instalments age }
    {
        let next = value_at(later, age as usize + 1);
        let pension = self.to_next_year(basis, Kind::InvalidDeath, age).of(next);
        Chance::of(basis, Kind::Invalidity, age).part().of(pension)
    }

    // Invalidity in a year: the widow's pension after a later death, or after one in the same year.
    fn turning_invalid_widow<B: Basis>(&self, basis: &B, column: Column<'_>, age: u32) -> u64
        requires widows { WidowsFilled (B.figures basis.now) self.now.interest self.now.instalments column.widows.now }
        requires later { Filled (level_of (B.figures basis.now) self.now.interest self.now.instalments InvalidDeath Widows) column.later.now }
        ensures { result ≡ turning_invalid_widow_number (B.figures basis.now) self.now.interest self.now.instalments age }
    {
        let next = value_at(column.later, age as usize + 1);
        let later = self.to_next_year(basis, Kind::InvalidDeath, age).of(next);
        let left = self.left(basis, column.widows, age);
        let same_year = Chance::of(basis, Kind::InvalidDeath, age).sooner().of(left);
        Chance::of(basis, Kind::Invalidity, age)
            .part()
            .of(later + same_year)
    }

    // The share of an active below the final age: of a path's plain numbers, the benefit and one age.
    fn share_below<B: Basis>(
        &self,
        basis: &B,
        column: Column<'_>,
        benefit: Benefit,
        age: u32,
    ) -> u64
        requires { ActiveReads (B.figures basis.now) self.now.interest self.now.instalments benefit column.widows.now column.later.now }
        ensures { result ≡ below_number (B.figures basis.now) self.now.interest self.now.instalments benefit age }
    {
        match benefit {
            Benefit::Active => self.paid(self.stays_on(basis, age)),
            Benefit::ActiveInvalidity | Benefit::ActiveInvalidityRetirement => {
                self.turning_invalid(basis, column.later, age)
            }
            Benefit::ActiveDeathWidow | Benefit::ActiveOrRetiredWidow => {
                self.widowed(basis, column.widows, Kind::ActiveDeath, age)
            }
            Benefit::ActiveInvalidWidow => self.turning_invalid_widow(basis, column, age),
            Benefit::ActiveWidow => {
                let as_active = self.widowed(basis, column.widows, Kind::ActiveDeath, age);
                as_active + self.turning_invalid_widow(basis, column, age)
            }
            _ => 0,
        }
    }
}

// An active from an age on, with a benefit and what it is worth at the final age.
#[derive(Clone, Copy)]
pub(crate) struct ActivePath {
    pub(crate) rates: Rates,
    pub(crate) benefit: Benefit,
    pub(crate) age: u32,
    pub(crate) final_age: u32,
    pub(crate) at_final: u64,
    ghost aged: { age ≤ 120 },
}

impl<B: Basis> Path<B> for ActivePath {
    ghost ready = { λ p b widows later. ActiveReads (B.Basis.figures b) p.rates.interest p.rates.instalments p.benefit widows later × (p.at_final ≡ final_number (B.Basis.figures b) p.rates.interest p.rates.instalments p.benefit) × (p.final_age ≡ (B.Basis.figures b).final_age) };

    ghost survivals = { λ p b k. stays_on (B.Basis.figures b) p.rates.interest p.rates.instalments (p.age + k) };

    ghost shares = { λ p b k. active_share (B.Basis.figures b) p.rates.interest p.rates.instalments p.benefit (p.age + k) };

    fn survival(&self, basis: &B, year: u32) -> Part {
        self.rates.stays_on(basis, self.age + year)
    }

    fn share(&self, basis: &B, column: Column<'_>, year: u32) -> u64 {
        let age = self.age + year;
        if age >= self.final_age {
            return self.at_final;
        }
        self.rates.share_below(basis, column, self.benefit, age)
    }
}
