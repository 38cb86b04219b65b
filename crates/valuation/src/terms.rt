// The terms of a valuation: the interest, and how a year's pension is paid.
ghost use Rattle.std.specs.Prelude.{◌≡◌, ◌≤◌, true};
ghost use Rattle.fault.specs.Faults.{Outcome};
ghost use Rattle.valuation.specs.Terms.{listed, terms_fault};

use fault::{Fault, Refusal};

// The greatest interest, in hundredths of a percent.
pub const GREATEST_INTEREST: u32 = 2000;

#[derive(Clone, Copy)]
pub struct Terms {
    pub(crate) interest: u32,
    pub(crate) instalments: u32,
    ghost modest: { interest ≤ 2000 },
    ghost usual: { listed instalments ≡ true },
}

impl Terms {
    // Terms with an interest in hundredths of a percent and a number of instalments a year.
    pub fn new(interest: u32, instalments: u32) -> Result<Terms, Fault>
        ensures { Outcome result (terms_fault interest instalments) (λ t. (t.interest ≡ interest) × (t.instalments ≡ instalments)) }
    {
        if interest > GREATEST_INTEREST {
            return Err(Refusal::Interest.into());
        }
        match instalments {
            1 | 2 | 3 | 4 | 6 | 12 => Ok(Terms {
                interest,
                instalments,
            }),
            _ => Err(Refusal::Instalments.into()),
        }
    }
}
