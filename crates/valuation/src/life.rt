// A life, followed to the last age.
ghost use Rattle.std.specs.Prelude.{◌+◌, ◌≤◌};
ghost use Rattle.valuation.specs.Columns.{Reads, level_share};
ghost use Rattle.valuation.specs.Pair.{goes_on};

use crate::columns::Column;
use crate::fixed::Part;
use crate::path::Path;
use crate::rates::Rates;
use crate::stream::Stream;
use basis::interface::Basis;

// A population from an age on, with its pensions or with the widows' pensions that its deaths leave.
#[derive(Clone, Copy)]
pub(crate) struct LifePath {
    pub(crate) rates: Rates,
    pub(crate) stream: Stream,
    pub(crate) age: u32,
    ghost aged: { age ≤ 120 },
}

impl<B: Basis> Path<B> for LifePath {
    ghost ready = { λ p b widows later. Reads (B.Basis.figures b) p.rates.interest p.rates.instalments p.stream.level widows };

    ghost survivals = { λ p b k. goes_on (B.Basis.figures b) p.rates.interest p.rates.instalments p.stream.population (p.age + k) };

    ghost shares = { λ p b k. level_share (B.Basis.figures b) p.rates.interest p.rates.instalments p.stream.population p.stream.level (p.age + k) };

    fn survival(&self, basis: &B, year: u32) -> Part {
        self.rates
            .goes_on(basis, self.stream.population, self.age + year)
    }

    fn share(&self, basis: &B, column: Column<'_>, year: u32) -> u64 {
        self.rates
            .level_share(basis, column.widows, self.stream, self.age + year)
    }
}
