// Promises with their exact values, one to a line of the input: each pair has to enclose its value and to be narrow.
#![tactic(auto)]

use anyhow::{Context, anyhow};
use basis::loading::Loading;
use basis::shift::Shift;
use basis::straight_line::StraightLine;
use fault::Fault;
use input::{Repeated, number, small_number};
use pile::Pile;
use pile::bottom::Bottom;
use pile::layer::Layer;
use std::fs;
use std::str::SplitWhitespace;
use table::Table;
use valuation::admission::LEAST_COLUMN;
use valuation::benefit::Benefit;
use valuation::pair::Pair;
use valuation::promise::Promise;
use valuation::terms::Terms;
use valuation::value::value;

// The numbers of lines, which have 32 bits: past the last they begin again at 0.
const LINE_NUMBERS: usize = 1 << 32;

// What a row asks, but for the yearly amounts.
#[derive(Clone, Copy)]
struct Question {
    interest: u32,
    instalments: u32,
    benefit: Benefit,
    age: u32,
}

// What the rows of one benefit came to.
#[derive(Clone, Copy, Default)]
struct Tally {
    rows: u32,
    enclosed: u32,
    widest: u64,
}

// What the rows came to so far.
#[derive(Clone, Copy, Default)]
struct Report {
    tallies: [Tally; 16],
    refused: u32,
}

// `table FILE` or `line FINAL_AGE INVALIDITY`.
fn read_bottom(rt: &HostRuntime, words: &mut SplitWhitespace<'_>) -> anyhow::Result<Bottom> {
    match words.next() {
        Some("table") => {
            let book = fs::read(rt, words.next().context("no book")?)?;
            let mut table = Table::new();
            table.read(book.as_slice())?;
            Ok(Bottom::Table(table))
        }
        Some("line") => {
            let final_age = small_number(words.next())?;
            Ok(Bottom::Line(StraightLine::new(final_age, small_number(words.next())?)?))
        }
        _ => Err(anyhow!("no such basis")),
    }
}

// A layer: `s-3` for a shift, `l950` for a loading.
fn read_layer(word: &str) -> anyhow::Result<Layer> {
    if let Some(years) = word.strip_prefix('s') {
        return Ok(Layer::Shift(Shift::new(years.parse::<i32>()?)?));
    }
    let thousandths = word.strip_prefix('l').context("no such layer")?;
    Ok(Layer::Loading(Loading::new(thousandths.parse::<u32>()?)?))
}

// A basis of the input: a bottom, and any number of layers over it, the lowest first.
fn read_pile(rt: &HostRuntime, words: &mut SplitWhitespace<'_>) -> anyhow::Result<Pile> {
    let mut pile = Pile::on(rt.alloc(), read_bottom(rt, words)?);
    for word in words {
        pile.lay(read_layer(word)?)?;
    }
    Ok(pile)
}

fn read_question(words: &mut SplitWhitespace<'_>) -> anyhow::Result<Question> {
    Ok(Question {
        interest: small_number(words.next())?,
        instalments: small_number(words.next())?,
        benefit: Benefit::from_name(words.next().context("no benefit")?).context(
            "no such benefit",
        )?,
        age: small_number(words.next())?,
    })
}

// Yearly amounts, each word `A`, or `N*A` for N times A, under this program's error.
fn read_amounts(rt: &HostRuntime, words: &mut SplitWhitespace<'_>) -> anyhow::Result<Vec<u32>> {
    let mut amounts = Vec::new(rt.alloc());
    for word in words {
        word.parse::<Repeated>()?.push_onto(&mut amounts)?;
    }
    Ok(amounts)
}

fn value_on(pile: &Pile, question: Question, amounts: &[u32]) -> Result<Pair, Fault> {
    let terms = Terms::new(question.interest, question.instalments)?;
    let mut column = [0u64; LEAST_COLUMN];
    let promise = Promise {
        benefit: question.benefit,
        age: question.age,
        amounts,
    };
    value(pile, terms, promise, &mut column)
}

// Whether a gap is at most 3 cents, which is proved, and at most 20 cents and a cent for each 1000 euros, which is owed.
fn narrow(gap: u64, amounts: &[u32]) -> bool {
    let mut most = 20_000u64;
    for amount in amounts {
        most = most.saturating_add(*amount as u64);
    }
    gap <= 3 && 1000 * gap <= most
}

impl Report {
    fn count(&mut self, benefit: Benefit, gap: u64, enclosed: bool) {
        let tally = &mut self.tallies[benefit as usize];
        tally.rows = tally.rows.wrapping_add(1);
        tally.enclosed = tally.enclosed.wrapping_add(enclosed as u32);
        tally.widest = tally.widest.max(gap);
    }

    // A row with the whole cents below and above its exact value.
    fn hold_row(
        &mut self,
        rt: &HostRuntime,
        line: usize,
        pile: &Pile,
        words: &mut SplitWhitespace<'_>,
    ) -> anyhow::Result<()> {
        let question = read_question(words)?;
        let floor = number(words.next())?;
        let ceiling = number(words.next())?;
        let amounts = read_amounts(rt, words)?;
        match value_on(pile, question, amounts.as_slice()) {
            Ok(pair) => {
                let gap = pair.upper.saturating_sub(pair.lower);
                let enclosed = pair.lower <= floor
                    && ceiling <= pair.upper
                    && narrow(gap, amounts.as_slice());
                self.count(question.benefit, gap, enclosed);
                if !enclosed {
                    println!(rt; "line {line}: {pair} for {floor} to {ceiling}")?;
                }
            }
            Err(fault) => {
                self.count(question.benefit, 0, false);
                println!(rt; "line {line}: refused {fault}")?;
            }
        }
        Ok(())
    }

    // A row that has to be refused, with its fault's number, since what rows say may not change, and place. The part of the
    // fault has to be the number's own.
    fn hold_fault(
        &mut self,
        rt: &HostRuntime,
        line: usize,
        pile: &Pile,
        words: &mut SplitWhitespace<'_>,
    ) -> anyhow::Result<()> {
        let question = read_question(words)?;
        let number = small_number(words.next())?;
        let first = small_number(words.next())?;
        let second = small_number(words.next())?;
        let amounts = read_amounts(rt, words)?;
        match value_on(pile, question, amounts.as_slice()) {
            Ok(pair) => println!(rt; "line {line}: {pair}")?,
            Err(fault) => {
                if fault.refusal.number() as u32 == number
                    && fault == Fault::new(fault.refusal, first, second)
                {
                    self.refused = self.refused.wrapping_add(1);
                } else {
                    println!(rt; "line {line}: refused {fault}")?;
                }
            }
        }
        Ok(())
    }

    fn print(&self, rt: &HostRuntime) -> anyhow::Result<()> {
        let mut all = 0u32;
        let mut held = 0u32;
        for (benefit, tally) in Benefit::ALL.iter().zip(self.tallies.iter()) {
            let Tally {
                rows,
                enclosed,
                widest,
            } = *tally;
            println!(rt; "{benefit}: {rows} rows, {enclosed} enclosed, widest gap {widest}")?;
            all = all.wrapping_add(rows);
            held = held.wrapping_add(enclosed);
        }
        let refused = self.refused;
        println!(rt; "{all} rows in all, {held} enclosed; {refused} refused as foretold")?;
        Ok(())
    }
}

fn main(rt: HostRuntime) -> anyhow::Result<()> {
    let mut report = Report::default();
    let mut pile = Pile::on(rt.alloc(), Bottom::Table(Table::new()));
    for (before, text) in rt.lines(rt.alloc()).enumerate() {
        let text = text?;
        let line = (before + 1) % LINE_NUMBERS;
        if text.as_str().starts_with('#') {
            continue;
        }
        let mut words = text.as_str().split_whitespace();
        match words.next() {
            Some("basis") => pile = read_pile(&rt, &mut words)?,
            Some("row") => report.hold_row(&rt, line, &pile, &mut words)?,
            Some("fault") => report.hold_fault(&rt, line, &pile, &mut words)?,
            _ => return Err(anyhow!("no such line")),
        }
    }
    report.print(&rt)
}
