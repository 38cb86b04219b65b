// Whether rows obey the laws of a basis: the first place where they do not, by the order of the checks.
ghost use Rattle.std.specs.Prelude.{◌≡◌, ℕ, Option};
ghost use Rattle.table.specs.Book.{ChecksAges, list_fault, limit_fault, exits_fault, seam_fault, end_fault, open_end_fault, figures_fault};
ghost use Rattle.fault.specs.Faults.{Outcome, fault, first_below};
ghost use Rattle.basis.specs.Figures.{rank};
ghost use Rattle.table.specs.Table.{tabled};

use crate::rows::Rows;
use basis::kind::{AGES, CERTAIN, Kind, LAST_AGE};
use fault::{Fault, Refusal};
use std::ops::Range;

pub(crate) fn check_figures(rows: &Rows) -> Result<(), Fault>
    ensures { Outcome result (figures_fault (tabled rows.now)) (λ _. Unit {0}) }
{
    check_limits(rows)?;
    check_exits(rows)?;
    check_seam(rows)?;
    check_open_end(rows)
}

fn check_limits(rows: &Rows) -> Result<(), Fault>
    ensures { Outcome result (limit_fault (tabled rows.now)) (λ _. Unit {0}) }
{
    for kind in Kind::ALL {
        check_list(rows, kind)?;
    }
    Ok(())
}

fn check_list(rows: &Rows, kind: Kind) -> Result<(), Fault>
    ensures { Outcome result (list_fault (tabled rows.now) kind) (λ _. Unit {0}) }
{
    let ages = 0..kind.count(rows.final_age);
    refuse_first(
        Refusal::Figure,
        kind,
        ages,
        |age| rows.figure(kind, age) > kind.limit(),
    )
}

fn check_exits(rows: &Rows) -> Result<(), Fault>
    ensures { Outcome result (exits_fault (tabled rows.now)) (λ _. Unit {0}) }
{
    refuse_first(Refusal::Exits, Kind::Invalidity, 0..rows.final_age, |age| {
        let invalidity = rows.figure(Kind::Invalidity, age) as u64;
        invalidity + rows.figure(Kind::ActiveDeath, age) as u64 > CERTAIN as u64
    })
}

fn check_seam(rows: &Rows) -> Result<(), Fault>
    ensures { Outcome result (seam_fault (tabled rows.now)) (λ _. Unit {0}) }
{
    let ages = rows.final_age..AGES;
    refuse_first(
        Refusal::Seam,
        Kind::InvalidDeath,
        ages,
        |age| rows.figure(Kind::InvalidDeath, age) != rows.figure(Kind::PopulationDeath, age),
    )
}

// Refuses the first of the ages at which a law is broken, under the kind.
fn refuse_first<F: Fn(u32) -> bool>(
    refusal: Refusal,
    kind: Kind,
    mut ages: Range<u32>,
    breaks: F,
) -> Result<(), Fault>
    requires { F.IsAlwaysCallable breaks }
    ensures { (check : ℕ → Option Fault) → ChecksAges ages.start ages.end (F.post breaks) (fault refusal (rank kind)) check → Outcome result (first_below ages.end check) (λ _. Unit {0}) }
{
    match ages.find(|age| breaks(*age)) {
        Some(age) => Err(Fault::new(refusal, kind.rank() as u32, age)),
        None => Ok(()),
    }
}

fn check_end(rows: &Rows, kind: Kind) -> Result<(), Fault>
    ensures { Outcome result (end_fault (tabled rows.now) kind) (λ _. Unit {0}) }
{
    if rows.figure(kind, LAST_AGE) != CERTAIN {
        return Err(Fault::new(Refusal::OpenEnd, kind.rank() as u32, LAST_AGE));
    }
    Ok(())
}

// Of the whole population's last death the seam has told already.
fn check_open_end(rows: &Rows) -> Result<(), Fault>
    ensures { Outcome result (open_end_fault (tabled rows.now)) (λ _. Unit {0}) }
{
    check_end(rows, Kind::InvalidDeath)?;
    check_end(rows, Kind::WidowDeath)
}
