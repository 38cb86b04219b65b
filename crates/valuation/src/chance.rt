// A yearly chance, and the fixed-point numbers of what it says of a year.
ghost use Rattle.std.specs.Prelude.{◌≡◌, ◌≤◌};
ghost use Rattle.valuation.specs.Pair.{half_number, sooner_number};
ghost use Rattle.valuation.specs.Rates.{chance_number, lives_number};

use crate::fixed::Part;
use basis::interface::Basis;
use basis::kind::{CERTAIN, Kind};

#[derive(Clone, Copy)]
pub(crate) struct Chance {
    millionths: u32,
    ghost possible: { millionths ≤ 1000000 },
}

impl Chance {
    // The chance that a basis has in a list at an age, asked for by these three and so by no `From`.
    pub(crate) fn of<B: Basis>(basis: &B, kind: Kind, age: u32) -> Chance
        ensures { result.millionths ≡ (B.figures basis.now).figure kind age }
    {
        Chance {
            millionths: basis.figure(kind, age),
        }
    }

    // q
    pub(crate) fn part(self) -> Part
        ensures { result.number ≡ chance_number self.millionths }
    {
        Part::new(self.millionths as u64, CERTAIN as u64)
    }

    // 1 − q
    pub(crate) fn opposite(self) -> Part
        ensures { result.number ≡ lives_number self.millionths }
    {
        Part::new((CERTAIN - self.millionths) as u64, CERTAIN as u64)
    }

    // Of those alive at mid-year, the part that lives to the year's end.
    pub(crate) fn half(self) -> Part
        ensures { result.number ≡ half_number self.millionths }
    {
        if self.millionths == CERTAIN {
            return Part { number: 0 };
        }
        Part::new(
            2 * (CERTAIN - self.millionths) as u64,
            (2 * CERTAIN - self.millionths) as u64,
        )
    }

    // And the part that dies before it.
    pub(crate) fn sooner(self) -> Part
        ensures { result.number ≡ sooner_number self.millionths }
    {
        Part::new(
            self.millionths as u64,
            (2 * CERTAIN - self.millionths) as u64,
        )
    }
}
