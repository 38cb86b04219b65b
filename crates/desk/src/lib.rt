// The desk of a small house, for both programs: it reads a table book, lays an age shift and a loading over it, prints the
// figures, goes round with the book's bytes, and answers the promises of its input.
#![tactic(auto)]

mod books;
mod figures;
mod order;
mod promises;
mod week;

ghost use Rattle.std.specs.Prelude.{IfOk, ◌≤◌};
ghost use Rattle.std.specs.Process.{exit_status};

use crate::books::{go_round, show_damages};
use crate::figures::{lay, print_figures};
use crate::order::read_order;
use crate::promises::answer_promises;
use crate::week::{keep_week, second_clerk};
use basis::interface::Basis;
use basis::loading::Loading;
use basis::shift::Shift;
use std::process::ExitCode;
use std::{fs, io};
use table::Table;
use valuation::terms::Terms;

// What the promises of the input are asked for: whether they would be taken, or what they are worth. With their worth
// goes the week of an employer's stock. Two programs, a closed choice: a trait of it would be public, with methods that print
// and of which nothing could be stated.
#[derive(Clone, Copy, PartialEq, Eq, Debug)]
pub enum Task {
    Consider,
    Value,
}

fn serve(rt: &HostRuntime, task: Task) -> anyhow::Result<()> {
    let order = read_order(rt)?;
    let book = fs::read(rt, order.book.as_str())?;
    let mut table = Table::new();
    table.read(book.as_slice())?;
    let shift = Shift::new(order.shift)?;
    let loading = Loading::new(order.loading)?;
    let name = order.book.as_str();
    let final_age = table.final_age();
    println!(rt; "{name}: final age {final_age}")?;
    print_figures(rt, &table)?;
    let years = order.shift;
    let thousandths = order.loading;
    println!(rt; "under a shift of {years} and a loading of {thousandths}:")?;
    let pile = lay(table, shift, loading);
    print_figures(rt, &pile)?;
    go_round(rt, book.as_slice(), order.copy.as_str())?;
    println!(rt; "damaged books:")?;
    show_damages(rt, book.as_slice())?;
    if task == Task::Value {
        let terms = Terms::new(400, 12)?;
        keep_week(rt, pile, terms)?;
        second_clerk(rt, table, &order, terms)?;
    }
    answer_promises(rt, &pile, task)
}

// Does a program's task, and says by the exit status whether it could: 0, or 1 with a line on the error output.
pub fn run(rt: &HostRuntime, task: Task) -> io::Result<ExitCode>
    ensures { IfOk result (λ code. exit_status code ≤ 1) }
{
    match serve(rt, task) {
        Ok(()) => Ok(ExitCode::SUCCESS),
        Err(error) => {
            eprintln!(rt; "dotselm: {error}")?;
            Ok(ExitCode::FAILURE)
        }
    }
}
