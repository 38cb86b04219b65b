// Promises of the input.
use crate::Task;
use anyhow::Context;
use basis::interface::Basis;
use fault::Fault;
use input::Repeated;
use std::str::SplitWhitespace;
use std::{fmt, io};
use valuation::admission::{LEAST_COLUMN, check_promise};
use valuation::benefit::Benefit;
use valuation::pair::Pair;
use valuation::promise::Promise;
use valuation::terms::Terms;
use valuation::value::value;

// Yearly amounts, each word `A`, or `N*A` for N times A: each program that reads some has this loop under its own error.
fn read_amounts(rt: &HostRuntime, words: SplitWhitespace<'_>) -> anyhow::Result<Vec<u32>> {
    let mut amounts = Vec::new(rt.alloc());
    for word in words {
        word.parse::<Repeated>()?.push_onto(&mut amounts)?;
    }
    Ok(amounts)
}

// A promise of the input, under its terms.
#[derive(Drop)]
struct Asked {
    interest: u32,
    instalments: u32,
    benefit: Benefit,
    age: u32,
    amounts: Vec<u32>,
}

impl Asked {
    // Lends its own fields, which no other record has.
    fn promise(&self) -> Promise<'_> {
        Promise {
            benefit: self.benefit,
            age: self.age,
            amounts: self.amounts.as_slice(),
        }
    }
}

// A line `INTEREST INSTALMENTS BENEFIT AGE AMOUNTS`.
fn read_promise(rt: &HostRuntime, line: &str) -> anyhow::Result<Asked> {
    let mut words = line.split_whitespace();
    Ok(Asked {
        interest: words.next().context("no interest")?.parse::<u32>()?,
        instalments: words.next().context("no instalments")?.parse::<u32>()?,
        benefit: Benefit::from_name(words.next().context("no benefit")?).context(
            "no such benefit",
        )?,
        age: words.next().context("no age")?.parse::<u32>()?,
        amounts: read_amounts(rt, words)?,
    })
}

// What is answered for a promise: that it would be taken, or what it is worth.
#[derive(Clone, Copy)]
enum Told {
    Taken,
    Worth(Pair),
}

impl fmt::Display for Told {
    fn fmt<W: fmt::Write>(&self, f: &mut fmt::Formatter<W>) -> fmt::Result {
        match self {
            Told::Taken => write!(f, "taken"),
            Told::Worth(pair) => write!(f, "{pair} cents"),
        }
    }
}

fn consider<B: Basis>(basis: &B, asked: &Asked, task: Task) -> Result<Told, Fault> {
    let terms = Terms::new(asked.interest, asked.instalments)?;
    let mut column = [0u64; LEAST_COLUMN];
    match task {
        Task::Consider => {
            check_promise(basis, asked.promise(), &column)?;
            Ok(Told::Taken)
        }
        Task::Value => {
            let pair = value(basis, terms, asked.promise(), &mut column)?;
            Ok(Told::Worth(pair))
        }
    }
}

pub(crate) fn print_outcome<T: fmt::Display + Drop>(
    rt: &HostRuntime,
    outcome: Result<T, Fault>,
) -> io::Result<()> {
    match outcome {
        Ok(told) => println!(rt; "{told}"),
        Err(fault) => println!(rt; "refused {fault}"),
    }
}

// Its ages and span, and what is answered for it.
fn answer_promise<B: Basis>(
    rt: &HostRuntime,
    basis: &B,
    asked: &Asked,
    task: Task,
) -> io::Result<()> {
    let Promise { benefit, age, .. } = asked.promise();
    let final_age = basis.final_age();
    let first = benefit.first_age(final_age);
    let last = benefit.last_age(final_age);
    let span = benefit.span(final_age, age);
    print!(rt; "{benefit} from {first} to {last}, at {age} {span} amounts: ")?;
    print_outcome(rt, consider(basis, asked, task))
}

pub(crate) fn answer_promises<B: Basis>(
    rt: &HostRuntime,
    basis: &B,
    task: Task,
) -> anyhow::Result<()> {
    println!(rt; "promises:")?;
    for line in rt.lines(rt.alloc()) {
        match read_promise(rt, line?.as_str()) {
            Ok(asked) => answer_promise(rt, basis, &asked, task)?,
            Err(error) => println!(rt; "error {error}")?,
        }
    }
    Ok(())
}
