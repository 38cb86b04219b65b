// What a promise is refused for before it is valued.
ghost use Rattle.std.specs.Prelude.{◌≡◌, ◌≤◌, length};
ghost use Rattle.fault.specs.Faults.{Outcome};
ghost use Rattle.valuation.specs.Admission.{valuation_fault, amounts_fault};

use crate::promise::Promise;
use basis::interface::Basis;
use fault::{Fault, Refusal};

// The greatest yearly amount, in euros.
pub const GREATEST_AMOUNT: u32 = 1_000_000;

// The least length of a working column, which is lent: the project allows no heap here.
pub const LEAST_COLUMN: usize = 512;

// Whether a promise would be valued on a basis with a column of this length: the first fault in the order of the
// checks, which are the age, the number of amounts, each amount, and the column.
pub fn check_promise<B: Basis>(basis: &B, promise: Promise<'_>, column: &[u64]) -> Result<(), Fault>
    ensures { Outcome result (valuation_fault (B.figures basis.now).final_age promise.entry.benefit promise.entry.age promise.entry.amounts.now (length column.now)) (λ _. Unit {0}) }
{
    let Promise {
        benefit,
        age,
        amounts,
    } = promise;
    let final_age = basis.final_age();
    if age < benefit.first_age(final_age) || age > benefit.last_age(final_age) {
        return Err(Refusal::Age.into());
    }
    if amounts.len() != benefit.span(final_age, age) {
        return Err(Refusal::Span.into());
    }
    check_amounts(amounts)?;
    if column.len() < LEAST_COLUMN {
        return Err(Refusal::Column.into());
    }
    Ok(())
}

// The first amount above the limit, found by a loop over the amounts with their index, as the project wants it.
fn check_amounts(amounts: &[u32]) -> Result<(), Fault>
    requires { length amounts.now ≤ 121 }
    ensures { Outcome result (amounts_fault amounts.now) (λ _. Unit {0}) }
{
    for (k, amount) in amounts.iter().enumerate() {
        if *amount > GREATEST_AMOUNT {
            return Err(Fault::new(Refusal::Amount, k as u32, 0));
        }
    }
    Ok(())
}

#[cfg(test)]
mod tests {
    use super::*;
    use crate::benefit::Benefit;
    use basis::straight_line::StraightLine;
    use std::test::Fail;

    fn retired(age: u32, amounts: &[u32]) -> Promise<'_> {
        Promise {
            benefit: Benefit::Retired,
            age,
            amounts,
        }
    }

    #[test]
    fn a_column_is_looked_at_last(rt: HostRuntime) -> Result<(), Fail> {
        let line = StraightLine::new(65, 0)?;
        let short = [0u64; 511];
        assert_eq!(rt;
            check_promise(&line, retired(120, &[1000]), &short),
            Err(Fault::new(Refusal::Column, 0, 0))
        );
        assert_eq!(rt;
            check_promise(&line, retired(120, &[1_000_001]), &short),
            Err(Fault::new(Refusal::Amount, 0, 0))
        );
        assert_eq!(rt;
            check_promise(&line, retired(64, &[]), &short),
            Err(Fault::new(Refusal::Age, 0, 0))
        );
        Ok(())
    }
}
