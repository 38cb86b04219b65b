// Cases for the basis, one to a line of the input: what is taken, what is refused, and with which fault.
#![tactic(auto)]

ghost use Rattle.std.specs.Prelude.{◌≡◌, true};

use anyhow::{Context, anyhow};
use basis::interface::Basis;
use basis::kind::Kind;
use basis::loading::Loading;
use basis::setting::Setting;
use basis::shift::Shift;
use basis::straight_line::StraightLine;
use fault::Fault;
use std::str::SplitWhitespace;
use table::{LONGEST_BOOK, Table};

// Two equal questions have equal answers, on any basis.
fn steady<B: Basis>(basis: &B, kind: Kind, age: u32) -> bool
    ensures { result ≡ true }
{
    basis.figure(kind, age) == basis.figure(kind, age)
}

// All figures of a basis added up, over more ages than it has.
fn census<B: Basis>(basis: &B) -> u64 {
    let mut sum = 0u64;
    for kind in Kind::ALL {
        for age in 0..140 {
            if steady(basis, kind, age) {
                sum = sum.wrapping_add(basis.figure(kind, age) as u64);
            }
        }
    }
    sum
}

// The next word as a number, 0 where there is none.
fn number(words: &mut SplitWhitespace<'_>) -> anyhow::Result<i64> {
    match words.next() {
        Some(word) => Ok(word.parse::<i64>()?),
        None => Ok(0),
    }
}

fn unsigned(words: &mut SplitWhitespace<'_>) -> anyhow::Result<u32> {
    Ok(u32::try_from(number(words)?)?)
}

// The book of the first table basis, cut or filled up to a length, with bytes put in as `PLACE=BYTE`.
fn damaged(rt: &HostRuntime, words: &mut SplitWhitespace<'_>) -> anyhow::Result<Vec<u8>> {
    let mut buffer = [0u8; LONGEST_BOOK];
    let _ = Table::new().write(&mut buffer)?;
    let length = usize::try_from(number(words)?)?;
    let mut book = buffer
        .iter()
        .take(length)
        .copied()
        .collect::<Vec<u8>>(rt.alloc())?;
    for word in words {
        let (place, byte) = word.split_once('=').context("no PLACE=BYTE")?;
        let place = place.parse::<usize>()?;
        if let Some(old) = book.get_mut(place) {
            *old = byte.parse::<u8>()?;
        }
    }
    Ok(book)
}

fn answer(rt: &HostRuntime, taken: Result<u64, Fault>) -> anyhow::Result<()> {
    match taken {
        Ok(n) => println!(rt; "taken {n}")?,
        Err(fault) => println!(rt; "refused {fault}")?,
    }
    Ok(())
}

// A refused book leaves the basis as it was; a taken one is written out as the same bytes, and read again as the same basis.
fn read_book(
    rt: &HostRuntime,
    words: &mut SplitWhitespace<'_>,
) -> anyhow::Result<Result<u64, Fault>> {
    let book = damaged(rt, words)?;
    let mut table = Table::new();
    let before = census(&table);
    if let Err(fault) = table.read(book.as_slice()) {
        if census(&table) != before {
            return Err(anyhow!("a refused book altered the basis"));
        }
        return Ok(Err(fault));
    }
    let mut buffer = [0u8; LONGEST_BOOK];
    let length = table.write(&mut buffer)?;
    if &buffer[0..length] != book.as_slice() {
        return Err(anyhow!("a book came back changed"));
    }
    if census(&table.reread(&mut buffer)?) != census(&table) {
        return Err(anyhow!("a basis came back changed"));
    }
    Ok(Ok(census(&table)))
}

// Writes the first table basis into a buffer of a length: what lies past the book stays as it was.
fn write_book(rt: &HostRuntime, length: usize) -> anyhow::Result<Result<u64, Fault>> {
    let mut buffer = vec![in rt.alloc(); 7u8; length]?;
    let wrote = Table::new().write(buffer.as_mut_slice());
    let past = wrote.unwrap_or(0);
    if buffer.iter().skip(past).any(|byte| *byte != 7) {
        return Err(anyhow!("a byte past the book was touched"));
    }
    Ok(wrote.map(|n| n as u64))
}

fn line(words: &mut SplitWhitespace<'_>) -> anyhow::Result<Result<u64, Fault>> {
    let final_age = unsigned(words)?;
    let invalidity = unsigned(words)?;
    Ok(StraightLine::new(final_age, invalidity).map(|basis| census(&basis)))
}

// The death chances of the whole population at the ages that are left of a line.
fn print_deaths<B: Basis>(
    rt: &HostRuntime,
    basis: &B,
    words: &mut SplitWhitespace<'_>,
) -> anyhow::Result<()> {
    for word in words {
        let age = word.parse::<u32>()?;
        let figure = basis.figure(Kind::PopulationDeath, age);
        println!(rt; "qg({age}) = {figure}")?;
    }
    Ok(())
}

// A setting, if it is taken, over the straight line of final age 65 with no invalidity.
fn laid<S: Setting + Drop>(
    rt: &HostRuntime,
    setting: Result<S, Fault>,
    words: &mut SplitWhitespace<'_>,
) -> anyhow::Result<Result<u64, Fault>> {
    let below = StraightLine::new(65, 0)?;
    match setting {
        Ok(setting) => {
            let basis = setting.over(below);
            print_deaths(rt, &basis, words)?;
            Ok(Ok(census(&basis)))
        }
        Err(fault) => Ok(Err(fault)),
    }
}

// Layers over layers, over a bottom: the same two settings both ways round, and one over itself.
fn layers<B: Basis + Copy>(
    rt: &HostRuntime,
    bottom: B,
    shift: Shift,
    loading: Loading,
) -> anyhow::Result<()> {
    let loaded = census(&loading.over(shift.over(bottom)));
    let shifted = census(&shift.over(loading.over(bottom)));
    let twice = census(&shift.over(shift.over(bottom)));
    println!(rt;
        "loading over shift {loaded}, shift over loading {shifted}, shift over shift {twice}"
    )?;
    Ok(())
}

fn piles(rt: &HostRuntime, words: &mut SplitWhitespace<'_>) -> anyhow::Result<()> {
    let shift = Shift::new(i32::try_from(number(words)?)?)?;
    let loading = Loading::new(unsigned(words)?)?;
    layers(rt, StraightLine::new(70, 3000)?, shift, loading)?;
    layers(rt, Table::new(), shift, loading)
}

// An arm for each case of the input.
fn answer_line(rt: &HostRuntime, text: &str) -> anyhow::Result<()> {
    let mut words = text.split_whitespace();
    match words.next() {
        Some("book") => answer(rt, read_book(rt, &mut words)?),
        Some("buffer") => answer(rt, write_book(rt, usize::try_from(number(&mut words)?)?)?),
        Some("line") => answer(rt, line(&mut words)?),
        Some("shift") => {
            let setting = Shift::new(i32::try_from(number(&mut words)?)?);
            answer(rt, laid(rt, setting, &mut words)?)
        }
        Some("loading") => {
            let setting = Loading::new(unsigned(&mut words)?);
            answer(rt, laid(rt, setting, &mut words)?)
        }
        Some("piles") => piles(rt, &mut words),
        _ => Err(anyhow!("no such case")),
    }
}

fn main(rt: HostRuntime) -> anyhow::Result<()> {
    for text in rt.lines(rt.alloc()) {
        let text = text?;
        println!(rt; "{text}")?;
        if !text.as_str().starts_with('#') {
            answer_line(&rt, text.as_str())?;
        }
    }
    Ok(())
}
