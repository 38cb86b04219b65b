// Why a thing is refused: a record by value that passes upward whole, from the book to the stock.
#![tactic(auto)]

ghost use Rattle.std.specs.Prelude.{◌≡◌, Some};
ghost use Rattle.fault.specs.Faults.{rule, fault, fault_in, fault_text, part_name, hyphened};

use std::error::Error;
use std::fmt;

// The refusals of the whole product, in the order of their numbers and of the checks.
#[derive(Clone, Copy, PartialEq, Eq, Debug)]
pub enum Refusal {
    Stub,
    Edition,
    FinalAge,
    Contents,
    Length,
    Figure,
    Exits,
    Seam,
    OpenEnd,
    Shift,
    Loading,
    Interest,
    Instalments,
    Age,
    Span,
    Amount,
    Column,
    Known,
    Unknown,
    Full,
    Buffer,
}

// The part of the product that refuses.
#[derive(Clone, Copy, PartialEq, Eq, Debug)]
pub enum Part {
    Book,
    Basis,
    Terms,
    Valuation,
    Stock,
}

// Where the reason lies: two numbers whose meaning depends on the refusal, (0, 0) where there is nothing to point at.
#[derive(Clone, Copy, PartialEq, Eq, Debug)]
pub struct Place {
    pub first: u32,
    pub second: u32,
}

#[derive(Clone, Copy, PartialEq, Eq, Debug)]
pub struct Fault {
    pub refusal: Refusal,
    pub part: Part,
    pub place: Place,
}

impl Refusal {
    // The enum's own order, so that no second table stands beside it.
    pub fn number(self) -> u8
        ensures { result ≡ (rule self).number }
    {
        self as u8 + 1
    }

    pub fn word(self) -> &'static str
        ensures { result.now ≡ (rule self).word }
    {
        match self {
            Refusal::Stub => "stub",
            Refusal::Edition => "edition",
            Refusal::FinalAge => "final age",
            Refusal::Contents => "contents",
            Refusal::Length => "length",
            Refusal::Figure => "figure",
            Refusal::Exits => "exits",
            Refusal::Seam => "seam",
            Refusal::OpenEnd => "open end",
            Refusal::Shift => "shift",
            Refusal::Loading => "loading",
            Refusal::Interest => "interest",
            Refusal::Instalments => "instalments",
            Refusal::Age => "age",
            Refusal::Span => "span",
            Refusal::Amount => "amount",
            Refusal::Column => "column",
            Refusal::Known => "known",
            Refusal::Unknown => "unknown",
            Refusal::Full => "full",
            Refusal::Buffer => "buffer",
        }
    }

    pub(crate) fn part(self) -> Part
        ensures { result ≡ (rule self).part }
    {
        match self {
            Refusal::Stub
            | Refusal::Edition
            | Refusal::FinalAge
            | Refusal::Contents
            | Refusal::Length
            | Refusal::Figure
            | Refusal::Exits
            | Refusal::Seam
            | Refusal::OpenEnd
            | Refusal::Buffer => Part::Book,
            Refusal::Shift | Refusal::Loading => Part::Basis,
            Refusal::Interest | Refusal::Instalments => Part::Terms,
            Refusal::Age | Refusal::Span | Refusal::Amount | Refusal::Column => Part::Valuation,
            Refusal::Known | Refusal::Unknown | Refusal::Full => Part::Stock,
        }
    }
}

// A refusal is printed by its word, of two words joined by a hyphen, so that a printed fault has five words.
impl fmt::Display for Refusal {
    ghost output = { λ why. Some (hyphened (rule why).word) };

    fn fmt<W: fmt::Write>(&self, f: &mut fmt::Formatter<W>) -> fmt::Result {
        f.pad(match self {
            Refusal::FinalAge => "final-age",
            Refusal::OpenEnd => "open-end",
            _ => self.word(),
        })
    }
}

impl fmt::Display for Part {
    ghost output = { λ part. Some (part_name part) };

    fn fmt<W: fmt::Write>(&self, f: &mut fmt::Formatter<W>) -> fmt::Result {
        f.pad(match self {
            Part::Book => "book",
            Part::Basis => "basis",
            Part::Terms => "terms",
            Part::Valuation => "valuation",
            Part::Stock => "stock",
        })
    }
}

impl Fault {
    // A fault of the refusal's own part.
    pub fn new(refusal: Refusal, first: u32, second: u32) -> Fault
        ensures { result ≡ fault refusal first second }
    {
        Fault::within(refusal.part(), refusal, first, second)
    }

    // A fault of another part: making a straight-line basis refuses as the basis what a book would refuse as the book.
    pub fn within(part: Part, refusal: Refusal, first: u32, second: u32) -> Fault
        ensures { result ≡ fault_in part refusal first second }
    {
        Fault {
            refusal,
            part,
            place: Place { first, second },
        }
    }
}

// A refusal that has nothing to point at.
impl From<Refusal> for Fault {
    ghost from_gives = { λ why e. e ≡ fault why 0 0 };

    fn from(refusal: Refusal) -> Fault {
        Fault::new(refusal, 0, 0)
    }
}

impl fmt::Display for Fault {
    ghost output = { λ e. Some (fault_text e) };

    fn fmt<W: fmt::Write>(&self, f: &mut fmt::Formatter<W>) -> fmt::Result {
        let number = self.refusal.number();
        let Fault {
            refusal,
            part,
            place,
        } = *self;
        let Place { first, second } = place;
        write!(f, "{number} {refusal} {part} {first} {second}")
    }
}

impl Error for Fault {}

#[cfg(test)]
mod tests {
    use super::*;
    use std::test::Fail;

    #[test]
    fn a_fault_is_printed_in_five_words(rt: HostRuntime) -> Result<(), Fail> {
        let amount = Fault::new(Refusal::Amount, 3, 0);
        assert_eq!(rt;
            format!(in rt.alloc(); "{amount}")?.as_str(),
            "16 amount valuation 3 0"
        );
        let end = Fault::new(Refusal::OpenEnd, 5, 120);
        assert_eq!(rt;
            format!(in rt.alloc(); "{end}")?.as_str(),
            "9 open-end book 5 120"
        );
        Ok(())
    }
}
