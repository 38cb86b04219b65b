// Promises valued again and again, so that a benchmark in another language can measure how long it takes.
#![tactic(auto)]

ghost use Rattle.std.specs.Prelude.{◌≡◌, length};
ghost use Rattle.basis.specs.StraightLine.{straight_line};
ghost use Rattle.speed.specs.Repeated.{benefit_at, lower_or_none, repeated, repeated_at, yearly};

use basis::interface::Basis;
use basis::straight_line::StraightLine;
use table::Table;
use valuation::admission::LEAST_COLUMN;
use valuation::benefit::Benefit;
use valuation::promise::Promise;
use valuation::terms::Terms;
use valuation::value::value;

// The most years that a promise can have.
const YEARS: usize = 121;

// C has no benefits: one is named by its place.
fn benefit_at(place: u32) -> Option<Benefit>
    ensures { result ≡ benefit_at place }
{
    Benefit::ALL.get(place as usize).copied()
}

// The lower number of a promise, 0 if it is refused, since C has no Option.
fn lower<B: Basis>(basis: &B, terms: Terms, promise: Promise<'_>, column: &mut [u64]) -> u64
    requires yearly { promise.amounts.now ≡ yearly (B.figures basis.now) promise.benefit promise.age }
    requires long { length column.old ≡ 512 }
    ensures { result ≡ lower_or_none (B.figures basis.now) terms.interest terms.instalments promise.entry.benefit promise.entry.age }
{
    value(basis, terms, promise, column).map_or(0, |pair| pair.lower)
}

// The same promise valued a number of times: the sum of the lower numbers.
fn repeat<B: Basis>(basis: &B, terms: Terms, promise: Promise<'_>, times: u32) -> u64
    requires { promise.amounts.now ≡ yearly (B.figures basis.now) promise.benefit promise.age }
    ensures { result ≡ repeated (B.figures basis.now) terms.interest terms.instalments promise.entry.benefit promise.entry.age times }
{
    let mut column = [0; LEAST_COLUMN];
    let mut sum = 0u64;
    for _ in 0..times {
        sum = sum.wrapping_add(lower(basis, terms, promise, &mut column));
    }
    sum
}

// A promise of 12,000 a year. The benefit is given by its place among all, and the terms by their two numbers, as C has them.
fn repeat_at<B: Basis>(
    basis: &B,
    interest: u32,
    instalments: u32,
    place: u32,
    age: u32,
    times: u32,
) -> u64
    ensures { result ≡ repeated_at (B.figures basis.now) interest instalments place age times }
{
    let Ok(terms) = Terms::new(interest, instalments) else {
        return 0;
    };
    let Some(benefit) = benefit_at(place) else {
        return 0;
    };
    let amounts = [12_000; YEARS];
    let years = benefit.span(basis.final_age(), age);
    let promise = Promise {
        benefit,
        age,
        amounts: &amounts[..years],
    };
    repeat(basis, terms, promise, times)
}

// On the table basis as it is before it reads a book.
#[unsafe(no_mangle)]
pub extern "C" fn dotselm_on_table(
    interest: u32,
    instalments: u32,
    benefit: u32,
    age: u32,
    times: u32,
) -> u64
    ensures { result ≡ repeated_at (straight_line 65 0) interest instalments benefit age times }
{
    repeat_at(&Table::new(), interest, instalments, benefit, age, times)
}

// On the straight line with final age 65, where there is invalidity too.
#[unsafe(no_mangle)]
pub extern "C" fn dotselm_on_line(
    interest: u32,
    instalments: u32,
    benefit: u32,
    age: u32,
    times: u32,
) -> u64
    ensures { result ≡ repeated_at (straight_line 65 5000) interest instalments benefit age times }
{
    let line = StraightLine::new(65, 5000).unwrap();
    repeat_at(&line, interest, instalments, benefit, age, times)
}
