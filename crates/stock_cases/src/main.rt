// Calls to stocks with their foretold answers, one to a line of the input: each answer has to be as foretold.
#![tactic(auto)]

use anyhow::{Context, anyhow};
use basis::loading::Loading;
use basis::shift::Shift;
use basis::straight_line::StraightLine;
use fault::{Fault, Place};
use input::{Repeated, number, small_number};
use pile::Pile;
use pile::bottom::Bottom;
use pile::layer::Layer;
use std::fmt;
use std::io::{BufRead, BufReader};
use std::str::SplitWhitespace;
use stock::call::{Answer, Call};
use stock::stock::Stock;
use valuation::benefit::Benefit;
use valuation::pair::Pair;
use valuation::promise::Promise;
use valuation::terms::Terms;

// The numbers of lines, which have 32 bits: past the last they begin again at 0.
const LINE_NUMBERS: usize = 1 << 32;

// A promise of the input, and the length of the column that is lent for it.
#[derive(Drop)]
struct Handed {
    benefit: Benefit,
    age: u32,
    amounts: Vec<u32>,
    column: usize,
}

// A call of the input, with its key.
#[derive(Drop)]
enum Asked {
    Admit(u32, Handed),
    Amend(u32, Handed),
    Release(u32),
    Promise(u32),
    Total,
    Count,
}

// The six calls without their arguments.
#[derive(Clone, Copy)]
enum Kind {
    Admit,
    Amend,
    Release,
    Promise,
    Total,
    Count,
}

impl Kind {
    const ALL: [Kind; 6] = [
        Kind::Admit,
        Kind::Amend,
        Kind::Release,
        Kind::Promise,
        Kind::Total,
        Kind::Count,
    ];
}

impl fmt::Display for Kind {
    fn fmt<W: fmt::Write>(&self, f: &mut fmt::Formatter<W>) -> fmt::Result {
        f.pad(match self {
            Kind::Admit => "admit",
            Kind::Amend => "amend",
            Kind::Release => "release",
            Kind::Promise => "promise",
            Kind::Total => "total",
            Kind::Count => "count",
        })
    }
}

// The whole cents below and above the exact value of some promises, how many they are, and their amounts added up.
#[derive(Clone, Copy)]
struct Worth {
    floor: u64,
    ceiling: u64,
    promises: u32,
    amounts: u64,
}

// What an answer has to be.
#[derive(Clone, Copy)]
enum Foretold {
    Done,
    Cents(Worth),
    Number(u64),
    // a fault's number, since what rows say may not change, and its place: its part has to be the number's own
    Refused(u32, Place),
}

#[derive(Drop)]
struct Row {
    line: usize,
    foretold: Foretold,
    asked: Asked,
}

// A stock of the input: its basis, its terms and its calls.
#[derive(Drop)]
struct Session {
    pile: Pile,
    terms: Terms,
    rows: Vec<Row>,
}

// What the calls of one name came to.
#[derive(Clone, Copy, Default)]
struct Tally {
    granted: u32,
    refused: u32,
    held: u32,
}

// A tally for each kind of call.
#[derive(Clone, Copy, Default)]
struct Report {
    tallies: [Tally; 6],
}

// Yearly amounts, each word `A`, or `N*A` for N times A, under this program's error.
fn read_amounts(rt: &HostRuntime, words: &mut SplitWhitespace<'_>) -> anyhow::Result<Vec<u32>> {
    let mut amounts = Vec::new(rt.alloc());
    for word in words {
        word.parse::<Repeated>()?.push_onto(&mut amounts)?;
    }
    Ok(amounts)
}

fn read_handed(
    rt: &HostRuntime,
    words: &mut SplitWhitespace<'_>,
    column: &str,
) -> anyhow::Result<Handed> {
    Ok(Handed {
        benefit: Benefit::from_name(words.next().context("no benefit")?).context(
            "no such benefit",
        )?,
        age: small_number(words.next())?,
        amounts: read_amounts(rt, words)?,
        column: column.parse::<usize>()?,
    })
}

// `admit KEY BENEFIT AGE AMOUNTS`, also as `admit:511` with the length of the column, `release KEY`, `total`.
fn read_asked(rt: &HostRuntime, words: &mut SplitWhitespace<'_>) -> anyhow::Result<Asked> {
    let word = words.next().context("no call")?;
    let (name, column) = word.split_once(':').unwrap_or((word, "512"));
    match name {
        "admit" => Ok(Asked::Admit(small_number(words.next())?, read_handed(rt, words, column)?)),
        "amend" => Ok(Asked::Amend(small_number(words.next())?, read_handed(rt, words, column)?)),
        "release" => Ok(Asked::Release(small_number(words.next())?)),
        "promise" => Ok(Asked::Promise(small_number(words.next())?)),
        "total" => Ok(Asked::Total),
        "count" => Ok(Asked::Count),
        _ => Err(anyhow!("no such call")),
    }
}

// `done`, `cents FLOOR CEILING PROMISES AMOUNTS`, `number N` or `refused NUMBER FIRST SECOND`.
fn read_foretold(words: &mut SplitWhitespace<'_>) -> anyhow::Result<Foretold> {
    match words.next() {
        Some("done") => Ok(Foretold::Done),
        Some("cents") => Ok(Foretold::Cents(Worth {
            floor: number(words.next())?,
            ceiling: number(words.next())?,
            promises: small_number(words.next())?,
            amounts: number(words.next())?,
        })),
        Some("number") => Ok(Foretold::Number(number(words.next())?)),
        Some("refused") => {
            let number = small_number(words.next())?;
            let first = small_number(words.next())?;
            let second = small_number(words.next())?;
            Ok(Foretold::Refused(number, Place { first, second }))
        }
        _ => Err(anyhow!("no such answer")),
    }
}

// A foretold answer, a bar, and the call.
fn read_row(rt: &HostRuntime, line: usize, text: &str) -> anyhow::Result<Row> {
    let (foretold, asked) = text.split_once('|').context("no bar")?;
    Ok(Row {
        line,
        foretold: read_foretold(&mut foretold.split_whitespace())?,
        asked: read_asked(rt, &mut asked.split_whitespace())?,
    })
}

impl Handed {
    // Lends its own fields, which no other record has.
    fn promise(&self) -> Promise<'_> {
        Promise {
            benefit: self.benefit,
            age: self.age,
            amounts: self.amounts.as_slice(),
        }
    }
}

impl Asked {
    fn call(&self) -> Call<'_> {
        match self {
            Asked::Admit(key, handed) => Call::Admit(*key, handed.promise(), handed.column),
            Asked::Amend(key, handed) => Call::Amend(*key, handed.promise(), handed.column),
            Asked::Release(key) => Call::Release(*key),
            Asked::Promise(key) => Call::Promise(*key),
            Asked::Total => Call::Total,
            Asked::Count => Call::Count,
        }
    }

    // After admit and amend, the call that asks for the key's pair.
    fn next_call(&self) -> Option<Call<'_>> {
        match self {
            Asked::Admit(key, _) | Asked::Amend(key, _) => Some(Call::Promise(*key)),
            _ => None,
        }
    }

    fn kind(&self) -> Kind {
        match self {
            Asked::Admit(_, _) => Kind::Admit,
            Asked::Amend(_, _) => Kind::Amend,
            Asked::Release(_) => Kind::Release,
            Asked::Promise(_) => Kind::Promise,
            Asked::Total => Kind::Total,
            Asked::Count => Kind::Count,
        }
    }
}

impl Worth {
    // A pair encloses the exact value, and its gap is at most 20 cents for each promise and a cent for each 1000 euros.
    fn lies_in(self, pair: Pair) -> bool {
        let gap = pair.upper.saturating_sub(pair.lower) as u128;
        pair.lower <= self.floor
            && self.ceiling <= pair.upper
            && 1000 * gap <= 20_000 * self.promises as u128 + self.amounts as u128
    }
}

impl Foretold {
    fn holds(self, answer: Result<Answer, Fault>) -> bool {
        match (self, answer) {
            (Foretold::Done, Ok(Answer::Done)) => true,
            (Foretold::Cents(worth), Ok(Answer::Cents(pair))) => worth.lies_in(pair),
            (Foretold::Number(foretold), Ok(Answer::Number(number))) => number == foretold,
            (Foretold::Refused(number, Place { first, second }), Err(fault)) => {
                fault.refusal.number() as u32 == number
                    && fault == Fault::new(fault.refusal, first, second)
            }
            _ => false,
        }
    }
}

// The answer to a call. A promise that is taken is answered by the pair that its key then has.
fn answer_to(stock: &mut Stock<Pile>, asked: &Asked) -> Result<Answer, Fault> {
    let answer = stock.play(asked.call())?;
    match (answer, asked.next_call()) {
        (Answer::Done, Some(call)) => stock.play(call),
        _ => Ok(answer),
    }
}

// Other words than the `Display` of `Answer` has: a pair without `cents`, and `number N`.
fn print_answer(
    rt: &HostRuntime,
    line: usize,
    answer: Result<Answer, Fault>,
) -> anyhow::Result<()> {
    match answer {
        Ok(Answer::Done) => println!(rt; "line {line}: done")?,
        Ok(Answer::Cents(pair)) => println!(rt; "line {line}: {pair}")?,
        Ok(Answer::Number(number)) => println!(rt; "line {line}: number {number}")?,
        Err(fault) => println!(rt; "line {line}: refused {fault}")?,
    }
    Ok(())
}

impl Report {
    // Counts an answer, and prints one that is not as foretold.
    fn hold(
        &mut self,
        rt: &HostRuntime,
        row: &Row,
        answer: Result<Answer, Fault>,
    ) -> anyhow::Result<()> {
        let held = row.foretold.holds(answer);
        let tally = &mut self.tallies[row.asked.kind() as usize];
        tally.granted = tally.granted.wrapping_add(answer.is_ok() as u32);
        tally.refused = tally.refused.wrapping_add(answer.is_err() as u32);
        tally.held = tally.held.wrapping_add(held as u32);
        if !held {
            print_answer(rt, row.line, answer)?;
        }
        Ok(())
    }

    fn print(&self, rt: &HostRuntime) -> anyhow::Result<()> {
        let mut all = 0u32;
        let mut all_held = 0u32;
        for (kind, tally) in Kind::ALL.iter().zip(self.tallies.iter()) {
            let Tally {
                granted,
                refused,
                held,
            } = *tally;
            let played = granted.wrapping_add(refused);
            println!(rt;
                "{kind}: {played} played, {granted} granted, {refused} refused, {held} as foretold"
            )?;
            all = all.wrapping_add(played);
            all_held = all_held.wrapping_add(held);
        }
        println!(rt; "{all} calls in all, {all_held} as foretold")?;
        Ok(())
    }
}

impl Session {
    fn new(rt: &HostRuntime, final_age: u32, invalidity: u32) -> anyhow::Result<Session> {
        let line = StraightLine::new(final_age, invalidity)?;
        Ok(Session {
            pile: Pile::on(rt.alloc(), Bottom::Line(line)),
            terms: Terms::new(0, 1)?,
            rows: Vec::new(rt.alloc()),
        })
    }

    // A line that is no first one: `shift S`, `loading F`, `open INTEREST INSTALMENTS`, or a row.
    fn read(&mut self, rt: &HostRuntime, line: usize, text: &str) -> anyhow::Result<()> {
        let mut words = text.split_whitespace();
        match words.next() {
            Some("shift") => {
                let years = words.next().context("no years")?.parse::<i32>()?;
                self.pile.lay(Layer::Shift(Shift::new(years)?))?;
            }
            Some("loading") => {
                let thousandths = small_number(words.next())?;
                self.pile.lay(Layer::Loading(Loading::new(thousandths)?))?;
            }
            Some("open") => {
                let interest = small_number(words.next())?;
                self.terms = Terms::new(interest, small_number(words.next())?)?;
            }
            _ => self.rows.push(read_row(rt, line, text)?)?,
        }
        Ok(())
    }

    fn play(self, rt: &HostRuntime, report: &mut Report) -> anyhow::Result<()> {
        let Session { pile, terms, rows } = self;
        let mut stock = Stock::open(pile, terms);
        for row in rows.iter() {
            let answer = answer_to(&mut stock, &row.asked);
            report.hold(rt, row, answer)?;
        }
        Ok(())
    }
}

fn main(rt: HostRuntime) -> anyhow::Result<()> {
    let mut report = Report::default();
    let mut session = Session::new(&rt, 65, 0)?;
    for (before, text) in BufReader::new(rt.alloc(), rt.stdin())?
        .lines(rt.alloc())
        .enumerate()
    {
        let text = text?;
        let line = (before + 1) % LINE_NUMBERS;
        if text.as_str().starts_with('#') {
            continue;
        }
        let mut words = text.as_str().split_whitespace();
        if words.next() == Some("line") {
            session.play(&rt, &mut report)?;
            let final_age = small_number(words.next())?;
            session = Session::new(&rt, final_age, small_number(words.next())?)?;
        } else {
            session.read(&rt, line, text.as_str())?;
        }
    }
    session.play(&rt, &mut report)?;
    report.print(&rt)
}
