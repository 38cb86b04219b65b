// The table basis: figures from a book, lawful by the invariant of its type.
#![tactic(auto)]

mod book;
mod book_reader;
mod book_writer;
mod laws;
mod rows;

ghost use Rattle.std.specs.Prelude.{◌≡◌, ◌++◌, length, drop, OnErr};
ghost use Rattle.table.specs.Book.{book_fault, book_length, buffer_fault, decoded, rewrite_fault, written};
ghost use Rattle.fault.specs.Faults.{Outcome};
ghost use Rattle.basis.specs.Figures.{Aged, Limited, Exits, Seamless, Closed};
ghost use Rattle.basis.specs.StraightLine.{straight_line};
ghost use Rattle.table.specs.Table.{tabled, tabled_lawful};

use crate::book::book_length;
use crate::book_reader::Opened;
use crate::book_writer::put_book;
use crate::laws::check_figures;
use crate::rows::Rows;
use basis::interface::Basis;
use basis::kind::Kind;
use basis::straight_line::StraightLine;
use fault::{Fault, Refusal};

// The length of the longest book, that of final age 80: a buffer of this length takes any. Buffers are lent, and a book fills
// their first bytes: the project allows no heap here.
pub const LONGEST_BOOK: usize = 3097;

#[derive(Clone, Copy)]
pub struct Table {
    rows: Rows,
    ghost aged: { Aged (tabled rows) },
    ghost limited: { Limited (tabled rows) },
    ghost exits: { Exits (tabled rows) },
    ghost seamless: { Seamless (tabled rows) },
    ghost closed: { Closed (tabled rows) },
}

impl Table {
    // The basis before any book is read: the straight line of final age 65 with no invalidity.
    pub fn new() -> Table
        ensures { tabled result.rows ≡ straight_line 65 0 }
    {
        let start = StraightLine::new(65, 0).unwrap();
        Table {
            rows: Rows::from(&start),
        }
    }

    // Takes the figures of a book, or refuses it and stays as it was.
    pub fn read(&mut self, book: &[u8]) -> Result<(), Fault>
        ensures answer { Outcome result (book_fault book.now) (λ _. tabled self.new.rows ≡ decoded book.now) }
        ensures kept { OnErr result (self.new ≡ self.old) }
    {
        *self = Table::from_book(book)?;
        Ok(())
    }

    // A step of the calls, and no `TryFrom`: a book is taken by `read`, which keeps the basis if it is refused.
    fn from_book(book: &[u8]) -> Result<Table, Fault>
        ensures { Outcome result (book_fault book.now) (λ t. tabled t.rows ≡ decoded book.now) }
    {
        let opened = Opened::open(book)?;
        opened.check_contents()?;
        let rows = opened.whole()?.rows();
        check_figures(&rows)?;
        Ok(Table { rows })
    }

    // Writes the book of this basis into the first bytes of a buffer, and says how many they are; the rest is the caller's. A
    // buffer that is too short is refused and stays as it was.
    pub fn write(&self, buffer: &mut [u8]) -> Result<usize, Fault>
        ensures answer { Outcome result (buffer_fault self.now.rows.final_age buffer.old) (λ n. (n ≡ book_length self.now.rows.final_age) × (buffer.new ≡ written (tabled self.now.rows) buffer.old)) }
        ensures kept { OnErr result (buffer.new ≡ buffer.old) }
    {
        let length = book_length(self.rows.final_age);
        if buffer.len() < length {
            return Err(Refusal::Buffer.into());
        }
        put_book(buffer, &self.rows);
        Ok(length)
    }

    // Reads a book and writes it out again: the same bytes. Each call that has a buffer says of itself that a refusal keeps it.
    pub fn rewrite(book: &[u8], buffer: &mut [u8]) -> Result<usize, Fault>
        ensures answer { Outcome result (rewrite_fault book.now buffer.old) (λ n. (n ≡ length book.now) × (buffer.new ≡ book.now ++ drop n buffer.old)) }
        ensures kept { OnErr result (buffer.new ≡ buffer.old) }
    {
        Table::from_book(book)?.write(buffer)
    }

    // Writes this basis out and reads it again: the same basis.
    pub fn reread(&self, buffer: &mut [u8]) -> Result<Table, Fault>
        ensures answer { Outcome result (buffer_fault self.now.rows.final_age buffer.old) (λ t. (tabled t.rows ≡ tabled self.now.rows) × (buffer.new ≡ written (tabled self.now.rows) buffer.old)) }
        ensures kept { OnErr result (buffer.new ≡ buffer.old) }
    {
        let length = self.write(buffer)?;
        Table::from_book(&buffer[0..length])
    }
}

impl Basis for Table {
    ghost figures = { λ b. tabled b.rows };

    ghost lawful = { λ b. tabled_lawful b.rows b.aged b.limited b.exits b.seamless b.closed };

    fn final_age(&self) -> u32 {
        self.rows.final_age
    }

    fn figure(&self, kind: Kind, age: u32) -> u32 {
        self.rows.figure(kind, age)
    }
}
