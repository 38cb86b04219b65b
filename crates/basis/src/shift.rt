// The age shift: a layer that reads the chances of the basis below at another age.
ghost use Rattle.std.specs.Prelude.{◌≡◌, pos, negsuc, ◌+ℤ◌, ◌≤ℤ◌, if◌then◌else◌, nat_eq, refl};
ghost use Rattle.fault.specs.Faults.{Outcome};
ghost use Rattle.basis.specs.Layers.{shifted, shift_fault, brought, read_age};
ghost use Rattle.basis.specs.Layered.{shifted_lawful};

use crate::interface::Basis;
use crate::kind::{Kind, LAST_AGE};
use crate::setting::{Laid, Setting};
use fault::{Fault, Refusal};

// The greatest number of years that a shift goes up or down.
pub const GREATEST_SHIFT: i32 = 10;

// The setting of a shift: how many years older a person is taken to be.
#[derive(Clone, Copy)]
pub struct Shift {
    years: i32,
    ghost down: { negsuc 9 ≤ℤ years },
    ghost up: { years ≤ℤ pos 10 },
}

// The layer: a shift over any basis.
pub type Shifted<B> = Laid<Shift, B>;

impl Shift {
    pub fn new(years: i32) -> Result<Shift, Fault>
        ensures { Outcome result (shift_fault years) (λ s. s.years ≡ years) }
    {
        if !(-GREATEST_SHIFT..=GREATEST_SHIFT).contains(&years) {
            return Err(Refusal::Shift.into());
        }
        Ok(Shift { years })
    }

    // The age at which a list of the basis below is read: an arm for each range that a list's ages are brought into.
    pub fn read_age(self, final_age: u32, kind: Kind, age: u32) -> u32
        ensures { result ≡ read_age final_age self.years kind age }
    {
        match kind {
            Kind::Married | Kind::SpouseAge => age,
            Kind::WidowDeath => self.moved(age, 0, LAST_AGE),
            _ if age < final_age => self.moved(age, 0, final_age - 1),
            _ => self.moved(age, final_age, LAST_AGE),
        }
    }

    // An age with the shift added, brought into a range. The last age stays.
    fn moved(self, age: u32, low: u32, high: u32) -> u32
        ensures { result ≡ (if nat_eq age 120 then 120 else brought low high (pos age +ℤ self.years)) }
    {
        if age == LAST_AGE {
            return LAST_AGE;
        }
        age.saturating_add_signed(self.years).min(high).max(low)
    }
}

impl Setting for Shift {
    ghost laid = { λ s. shifted s.years };

    ghost aged = { λ s f. refl };

    ghost lawful = { λ s f l. shifted_lawful f l s.years };

    fn figure_over<B: Basis>(&self, below: &B, kind: Kind, age: u32) -> u32 {
        let final_age = below.final_age();
        if age >= kind.count(final_age) {
            return 0;
        }
        below.figure(kind, self.read_age(final_age, kind, age))
    }
}
