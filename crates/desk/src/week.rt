// The week of an employer's stock.
use crate::figures::lay;
use crate::order::Order;
use crate::promises::print_outcome;
use basis::interface::Basis;
use basis::loading::Loading;
use basis::shift::Shift;
use std::io;
use stock::call::{Answer, Call};
use stock::replay::compare;
use stock::run::Run;
use stock::stock::Stock;
use table::{LONGEST_BOOK, Table};
use valuation::admission::LEAST_COLUMN;
use valuation::benefit::Benefit;
use valuation::promise::Promise;
use valuation::terms::Terms;

// The yearly amounts of an employer's promises: to a pensioner, to a widow, to an active and to the widow of one.
const PENSION: [u32; 56] = [12_000; 56];

const WIDOW: [u32; 60] = [7_200; 60];

const ACTIVE: [u32; 26] = [14_400; 26];

const ACTIVE_WIDOW: [u32; 26] = [8_640; 26];

// The active's amounts with the last two raised.
fn raised() -> [u32; 26] {
    let mut amounts = ACTIVE;
    amounts[24] = 15_000;
    amounts[25] = 15_600;
    amounts
}

fn promise(benefit: Benefit, age: u32, amounts: &[u32]) -> Promise<'_> {
    Promise {
        benefit,
        age,
        amounts,
    }
}

// The calls of a week, with some among them that are refused.
fn week(raised: &[u32]) -> [Call<'_>; 15] {
    let pensioner = promise(Benefit::Retired, 65, &PENSION);
    let widow = promise(Benefit::Widow, 61, &WIDOW);
    let active = promise(Benefit::ActiveInvalidityRetirement, 40, &ACTIVE);
    let amended = promise(Benefit::ActiveInvalidityRetirement, 40, raised);
    let survivor = promise(Benefit::ActiveWidow, 40, &ACTIVE_WIDOW);
    let too_young = promise(Benefit::Retired, 64, &PENSION);
    [
        Call::Admit(1, pensioner, LEAST_COLUMN),
        Call::Admit(2, widow, LEAST_COLUMN),
        Call::Admit(3, active, LEAST_COLUMN),
        // a key that is in force, a wrong age, and a short column
        Call::Admit(3, widow, LEAST_COLUMN),
        Call::Admit(3, too_young, LEAST_COLUMN),
        Call::Admit(4, survivor, LEAST_COLUMN - 1),
        Call::Admit(4, survivor, LEAST_COLUMN),
        Call::Total,
        Call::Amend(3, amended, LEAST_COLUMN),
        Call::Promise(3),
        // a key that is not in force
        Call::Amend(5, amended, LEAST_COLUMN),
        Call::Release(2),
        Call::Release(2),
        Call::Count,
        Call::Total,
    ]
}

// What is in force at its end, under other keys and in another order.
fn end_of_week(raised: &[u32]) -> [Call<'_>; 3] {
    let survivor = promise(Benefit::ActiveWidow, 40, &ACTIVE_WIDOW);
    let amended = promise(Benefit::ActiveInvalidityRetirement, 40, raised);
    let pensioner = promise(Benefit::Retired, 65, &PENSION);
    [
        Call::Admit(70, survivor, LEAST_COLUMN),
        Call::Admit(71, amended, LEAST_COLUMN),
        Call::Admit(72, pensioner, LEAST_COLUMN),
    ]
}

// The first clerk's week, call by call.
pub(crate) fn keep_week<B: Basis + Drop>(
    rt: &HostRuntime,
    basis: B,
    terms: Terms,
) -> io::Result<()> {
    println!(rt; "the week:")?;
    let mut stock = Stock::open(basis, terms);
    let raised = raised();
    for call in week(&raised) {
        print!(rt; "{call}: ")?;
        print_outcome(rt, stock.play(call))?;
    }
    Ok(())
}

// The second clerk has the book written out and read again, and only the promises that are in force in the end.
pub(crate) fn second_clerk(
    rt: &HostRuntime,
    table: Table,
    order: &Order,
    terms: Terms,
) -> anyhow::Result<()> {
    let mut buffer = [0u8; LONGEST_BOOK];
    let reread = table.reread(&mut buffer)?;
    let shift = Shift::new(order.shift)?;
    let loading = Loading::new(order.loading)?;
    let raised = raised();
    let kept = Run {
        basis: lay(table, shift, loading),
        terms,
        calls: &week(&raised),
    };
    let recounted = Run {
        basis: lay(reread, shift, loading),
        terms,
        calls: &end_of_week(&raised),
    };
    let (first, second) = compare(kept, recounted);
    print!(rt; "the bookkeeper's total: ")?;
    print_outcome(rt, Ok(Answer::Cents(first)))?;
    print!(rt; "the second clerk's: ")?;
    print_outcome(rt, Ok(Answer::Cents(second)))?;
    Ok(())
}
