// The value of a promise: a pair of cents that encloses its exact present value.
ghost use Rattle.std.specs.Prelude.{◌≡◌, ◌+◌, ◌≤◌, length, slice_index};
ghost use Rattle.fault.specs.Faults.{Outcome};
ghost use Rattle.valuation.specs.ActivePath.{Invalids, active_share, final_number};
ghost use Rattle.valuation.specs.Admission.{valuation_fault};
ghost use Rattle.valuation.specs.Benefits.{span};
ghost use Rattle.valuation.specs.Columns.{Reads, WidowsFor, level_share};
ghost use Rattle.valuation.specs.Pair.{goes_on, high_units, low_units, running, slack, stays_on, weight};
ghost use Rattle.valuation.specs.Streams.{turns_to};
ghost use Rattle.valuation.specs.Valued.{Valued};

use crate::active::ActivePath;
use crate::admission::check_promise;
use crate::benefit::Benefit;
use crate::columns::{AGES, Column};
use crate::life::LifePath;
use crate::pair::Pair;
use crate::path::run;
use crate::promise::{Promise, Taken};
use crate::rates::Rates;
use crate::stream::{Level, Stream};
use crate::terms::Terms;
use basis::interface::Basis;
use basis::kind::Kind;
use fault::Fault;

// The sum is in units of 2^-20 cents.
const UNIT: u64 = 1_048_576;

impl Rates {
    // Puts the widows' annuities into their part, if the benefit leaves a widow's pension.
    fn fill_widows<B: Basis>(&self, basis: &B, benefit: Benefit, widows: &mut [u64; AGES])
        ensures { WidowsFor (B.figures basis.now) self.now.interest self.now.instalments benefit widows.new }
    {
        if benefit.leaves_widow() {
            let annuities = Stream {
                population: Kind::WidowDeath,
                level: Level::Annuities,
            };
            self.fill(basis, &[], annuities, widows);
        }
    }

    // What an active's benefit is worth at the final age, with a part of the column to work in.
    fn at_final<B: Basis>(
        &self,
        basis: &B,
        benefit: Benefit,
        widows: &[u64],
        part: &mut [u64; AGES],
    ) -> u64
        requires { WidowsFor (B.figures basis.now) self.now.interest self.now.instalments benefit widows.now }
        ensures { result ≡ final_number (B.figures basis.now) self.now.interest self.now.instalments benefit }
    {
        let Some(level) = benefit.retirement() else {
            return 0;
        };
        let pensioners = Stream {
            population: Kind::PopulationDeath,
            level,
        };
        self.fill(basis, widows, pensioners, part);
        part[basis.final_age() as usize]
    }

    // Puts what an active's benefit pays to invalids into a part of the column.
    fn fill_invalids<B: Basis>(
        &self,
        basis: &B,
        benefit: Benefit,
        widows: &[u64],
        part: &mut [u64; AGES],
    )
        requires { WidowsFor (B.figures basis.now) self.now.interest self.now.instalments benefit widows.now }
        ensures { Invalids (B.figures basis.now) self.now.interest self.now.instalments (turns_to benefit) part.new }
    {
        if let Some(level) = benefit.invalidity() {
            let invalids = Stream {
                population: Kind::InvalidDeath,
                level,
            };
            self.fill(basis, widows, invalids, part);
        }
    }

    // The sum along a life, and by how much it may fall short.
    fn along_life<B: Basis>(
        &self,
        basis: &B,
        stream: Stream,
        taken: Taken<'_>,
        column: Column<'_>,
    ) -> (u64, u64)
        requires { Reads (B.figures basis.now) self.now.interest self.now.instalments stream.level column.widows.now }
        ensures low { result.0 ≡ running (λ k. goes_on (B.figures basis.now) self.now.interest self.now.instalments stream.population (taken.entry.promise.age + k)) (λ k. level_share (B.figures basis.now) self.now.interest self.now.instalments stream.population stream.level (taken.entry.promise.age + k)) (λ k. weight (slice_index taken.entry.promise.amounts.now k)) (length taken.entry.promise.amounts.now) 0 }
        ensures short { result.1 ≡ slack (λ k. weight (slice_index taken.entry.promise.amounts.now k)) (length taken.entry.promise.amounts.now) 0 }
    {
        let path = LifePath {
            rates: *self,
            stream,
            age: taken.promise.age,
        };
        run(&path, basis, column, taken.promise.amounts)
    }

    // The sum along an active's path.
    fn along_active<B: Basis>(
        &self,
        basis: &B,
        taken: Taken<'_>,
        widows: &[u64],
        part: &mut [u64; AGES],
    ) -> (u64, u64)
        requires { WidowsFor (B.figures basis.now) self.now.interest self.now.instalments taken.promise.benefit widows.now }
        ensures low { result.0 ≡ running (λ k. stays_on (B.figures basis.now) self.now.interest self.now.instalments (taken.entry.promise.age + k)) (λ k. active_share (B.figures basis.now) self.now.interest self.now.instalments taken.entry.promise.benefit (taken.entry.promise.age + k)) (λ k. weight (slice_index taken.entry.promise.amounts.now k)) (length taken.entry.promise.amounts.now) 0 }
        ensures short { result.1 ≡ slack (λ k. weight (slice_index taken.entry.promise.amounts.now k)) (length taken.entry.promise.amounts.now) 0 }
    {
        let at_final = self.at_final(basis, taken.promise.benefit, widows, part);
        self.fill_invalids(basis, taken.promise.benefit, widows, part);
        let path = ActivePath {
            rates: *self,
            benefit: taken.promise.benefit,
            age: taken.promise.age,
            final_age: basis.final_age(),
            at_final,
        };
        let column = Column {
            widows,
            later: part,
        };
        run(&path, basis, column, taken.promise.amounts)
    }

    // The sum of a promise, and by how much it may fall short.
    fn sum_of<B: Basis>(&self, basis: &B, taken: Taken<'_>, column: &mut [u64]) -> (u64, u64)
        requires long { 242 ≤ length column.old }
        requires spanned { length taken.promise.amounts.now ≡ span (B.figures basis.now).final_age taken.promise.benefit taken.promise.age }
        ensures low { result.0 ≡ low_units (B.figures basis.now) self.now.interest self.now.instalments taken.entry.promise.benefit taken.entry.promise.age taken.entry.promise.amounts.now }
        ensures high { result.0 + result.1 ≡ high_units (B.figures basis.now) self.now.interest self.now.instalments taken.entry.promise.benefit taken.entry.promise.age taken.entry.promise.amounts.now }
    {
        let (widows, rest) = column.split_first_chunk_mut::<AGES>().unwrap();
        let later = rest.first_chunk_mut::<AGES>().unwrap();
        self.fill_widows(basis, taken.promise.benefit, widows);
        match taken.promise.benefit.stream() {
            Some(stream) => self.along_life(basis, stream, taken, Column { widows, later }),
            None => self.along_active(basis, taken, widows, later),
        }
    }
}

// The value of a promise on a basis, under terms: the fault that the checks of a promise find, or the pair. The column
// is only worked in, and may hold anything before and after.
pub fn value<B: Basis>(
    basis: &B,
    terms: Terms,
    promise: Promise<'_>,
    column: &mut [u64],
) -> Result<Pair, Fault>
    ensures answer { Outcome result (valuation_fault (B.figures basis.now).final_age promise.entry.benefit promise.entry.age promise.entry.amounts.now (length column.old)) (Valued (B.figures basis.now) terms.interest terms.instalments promise.entry.benefit promise.entry.age promise.entry.amounts.now) }
    ensures len { length column.new ≡ length column.old }
{
    check_promise(basis, promise, column)?;
    let (low, short) = Rates::from(terms).sum_of(basis, Taken { promise }, column);
    let lower = low / UNIT;
    let upper = (low + short + (UNIT - 1)) / UNIT;
    Ok(Pair { lower, upper })
}
