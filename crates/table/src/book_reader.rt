// Reading a table book: every check in its order, and the rows of a book that passes.
ghost use Rattle.std.specs.Prelude.{◌≡◌, ◌+◌, ◌≤◌, length, slice_index, slice_range};
ghost use Rattle.table.specs.Book.{book_length, decoded, opening_fault, entry_fault, contents_fault, length_fault};
ghost use Rattle.fault.specs.Faults.{Outcome};
ghost use Rattle.table.specs.Table.{tabled};

use crate::book::{CONTENTS_END, EDITION, body_place, book_length, entry_place};
use crate::rows::Rows;
use basis::kind::{GREATEST_FINAL_AGE, Kind, LEAST_FINAL_AGE};
use fault::{Fault, Refusal};

// A book whose opening passes, with the final age that it tells.
#[derive(Clone, Copy)]
pub(crate) struct Opened<'a> {
    book: &'a [u8],
    final_age: u32,
    ghost has_contents: { 37 ≤ length book.now },
    ghost told: { final_age ≡ slice_index book.now 1 },
    ghost old_enough: { 20 ≤ final_age },
    ghost young_enough: { final_age ≤ 80 },
}

impl<'a> Opened<'a> {
    // Stub, edition and final age.
    pub(crate) fn open(book: &'a [u8]) -> Result<Opened<'a>, Fault>
        ensures { Outcome result (opening_fault book.now) (λ o. o.book.now ≡ book.now) }
    {
        if book.len() < CONTENTS_END {
            return Err(Refusal::Stub.into());
        }
        if book[0] != EDITION {
            return Err(Refusal::Edition.into());
        }
        let final_age = book[1] as u32;
        if !(LEAST_FINAL_AGE..=GREATEST_FINAL_AGE).contains(&final_age) {
            return Err(Refusal::FinalAge.into());
        }
        Ok(Opened { book, final_age })
    }

    // The bytes at a place.
    fn bytes_at<const N: usize>(&self, place: usize) -> [u8; N]
        requires { place + N ≤ length self.now.book.now }
        ensures { result ≡ slice_range self.now.book.now place (place + N) }
    {
        *self.book[place..].first_chunk().unwrap()
    }

    fn check_entry(&self, kind: Kind) -> Result<(), Fault>
        ensures { Outcome result (entry_fault self.now.book.now self.now.final_age kind) (λ _. Unit {0}) }
    {
        let place = entry_place(kind);
        let count = u16::from_be_bytes(self.bytes_at(place + 1)) as u32;
        let body = u16::from_be_bytes(self.bytes_at(place + 3)) as usize;
        let right = self.book[place] == kind.rank()
            && count == kind.count(self.final_age)
            && body == body_place(kind, self.final_age);
        if !right {
            return Err(Fault::new(Refusal::Contents, kind.rank() as u32, 0));
        }
        Ok(())
    }

    pub(crate) fn check_contents(&self) -> Result<(), Fault>
        ensures { Outcome result (contents_fault self.now.book.now self.now.final_age) (λ _. Unit {0}) }
    {
        for kind in Kind::ALL {
            self.check_entry(kind)?;
        }
        Ok(())
    }

    // The book, if it has the length that its final age asks for.
    pub(crate) fn whole(self) -> Result<Whole<'a>, Fault>
        ensures { Outcome result (length_fault self.entry.book.now self.entry.final_age) (λ w. w.opened ≡ self.entry) }
    {
        if self.book.len() != book_length(self.final_age) {
            return Err(Refusal::Length.into());
        }
        Ok(Whole { opened: self })
    }
}

// An opened book of the right length: it has room for every figure.
#[derive(Clone, Copy)]
pub(crate) struct Whole<'a> {
    opened: Opened<'a>,
    ghost sized: { length opened.book.now ≡ book_length opened.final_age },
}

impl<'a> Whole<'a> {
    // The list's figure at an age, 0 at an age that the list has not.
    fn figure(&self, kind: Kind, age: u32) -> u32
        ensures { result ≡ (decoded self.now.opened.book.now).figure kind age }
    {
        let final_age = self.opened.final_age;
        if age >= kind.count(final_age) {
            return 0;
        }
        let place = body_place(kind, final_age) + 4 * age as usize;
        u32::from_be_bytes(self.opened.bytes_at(place))
    }

    pub(crate) fn rows(&self) -> Rows
        ensures { tabled result ≡ decoded self.now.opened.book.now }
    {
        Rows::from_fn(self.opened.final_age, |kind, age| self.figure(kind, age))
    }
}
