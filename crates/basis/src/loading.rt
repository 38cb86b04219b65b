// The loading: a layer that raises or lowers the death chances of the basis below by a factor.
ghost use Rattle.std.specs.Prelude.{◌≡◌, ◌≤◌, refl};
ghost use Rattle.fault.specs.Faults.{Outcome};
ghost use Rattle.basis.specs.Layers.{loaded, loading_fault, raised};
ghost use Rattle.basis.specs.Layered.{loaded_lawful};

use crate::interface::Basis;
use crate::kind::{CERTAIN, Kind, LAST_AGE};
use crate::setting::{Laid, Setting};
use fault::{Fault, Refusal};

// The range of a loading's factor, in thousandths.
pub const LEAST_LOADING: u32 = 500;

pub const GREATEST_LOADING: u32 = 2000;

// The setting of a loading: its factor in thousandths.
#[derive(Clone, Copy)]
pub struct Loading {
    thousandths: u32,
    ghost low: { 500 ≤ thousandths },
    ghost high: { thousandths ≤ 2000 },
}

// The layer: a loading over any basis.
pub type Loaded<B> = Laid<Loading, B>;

impl Loading {
    pub fn new(thousandths: u32) -> Result<Loading, Fault>
        ensures { Outcome result (loading_fault thousandths) (λ s. s.thousandths ≡ thousandths) }
    {
        if !(LEAST_LOADING..=GREATEST_LOADING).contains(&thousandths) {
            return Err(Refusal::Loading.into());
        }
        Ok(Loading { thousandths })
    }

    // A chance times the factor, whole part, at most the given chance: the two are no record, being the sides of one minimum.
    pub fn raised(self, chance: u32, most: u32) -> u32
        ensures { result ≡ raised self.thousandths chance most }
    {
        (chance as u64 * self.thousandths as u64 / 1000).min(most as u64) as u32
    }
}

impl Setting for Loading {
    ghost laid = { λ s. loaded s.thousandths };

    ghost aged = { λ s f. refl };

    ghost lawful = { λ s f l. loaded_lawful f l s.thousandths };

    fn figure_over<B: Basis>(&self, below: &B, kind: Kind, age: u32) -> u32 {
        let figure = below.figure(kind, age);
        match kind {
            Kind::Invalidity | Kind::Married | Kind::SpouseAge => figure,
            Kind::ActiveDeath => self.raised(figure, CERTAIN - below.figure(Kind::Invalidity, age)),
            _ if age == LAST_AGE => CERTAIN,
            _ => self.raised(figure, CERTAIN),
        }
    }
}
