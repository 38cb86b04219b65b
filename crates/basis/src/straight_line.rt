// The straight-line basis: deaths spread evenly over the years up to the last age.
ghost use Rattle.std.specs.Prelude.{◌≡◌, ◌≤◌};
ghost use Rattle.fault.specs.Faults.{Outcome};
ghost use Rattle.basis.specs.StraightLine.{straight_line, straight_line_fault};
ghost use Rattle.basis.specs.StraightLines.{straight_line_lawful};

use crate::interface::Basis;
use crate::kind::{AGES, CERTAIN, GREATEST_FINAL_AGE, Kind, LEAST_FINAL_AGE};
use fault::{Fault, Part, Refusal};

// The greatest chance of invalidity that a straight-line basis takes.
pub const GREATEST_INVALIDITY: u32 = 100_000;

#[derive(Clone, Copy)]
pub struct StraightLine {
    final_age: u32,
    invalidity: u32,
    ghost old_enough: { 20 ≤ final_age },
    ghost young_enough: { final_age ≤ 80 },
    ghost modest: { invalidity ≤ 100000 },
}

impl StraightLine {
    // A basis with this final age, and one chance of invalidity at every age below it.
    pub fn new(final_age: u32, invalidity: u32) -> Result<StraightLine, Fault>
        ensures { Outcome result (straight_line_fault final_age invalidity) (λ b. (b.final_age ≡ final_age) × (b.invalidity ≡ invalidity)) }
    {
        if !(LEAST_FINAL_AGE..=GREATEST_FINAL_AGE).contains(&final_age) {
            return Err(Fault::within(Part::Basis, Refusal::FinalAge, 0, 0));
        }
        if invalidity > GREATEST_INVALIDITY {
            let place = Kind::Invalidity.rank() as u32;
            return Err(Fault::within(Part::Basis, Refusal::Figure, place, 0));
        }
        Ok(StraightLine {
            final_age,
            invalidity,
        })
    }
}

impl Basis for StraightLine {
    ghost figures = { λ b. straight_line b.final_age b.invalidity };

    ghost lawful = { λ b. straight_line_lawful b.final_age b.invalidity b.old_enough b.young_enough b.modest };

    fn final_age(&self) -> u32 {
        self.final_age
    }

    fn figure(&self, kind: Kind, age: u32) -> u32 {
        if age >= kind.count(self.final_age) {
            return 0;
        }
        match kind {
            Kind::Invalidity => self.invalidity,
            Kind::Married => 800_000,
            Kind::SpouseAge => age.saturating_sub(3),
            _ => CERTAIN / (AGES - age),
        }
    }
}
