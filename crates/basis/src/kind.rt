// The seven lists of figures that a basis has, and the limits that its figures keep.
ghost use Rattle.std.specs.Prelude.{◌≡◌, Some};
ghost use Rattle.basis.specs.Figures.{rank, count, limit, symbol};

use std::fmt;

// A chance that is certain, in millionths.
pub const CERTAIN: u32 = 1_000_000;

// Nobody lives past this age.
pub const LAST_AGE: u32 = 120;

// How many ages there are, from 0 to the last.
pub const AGES: u32 = 121;

// The range of the final age. Each type that has one keeps its two ends, and no type of its own does: the interface answers
// a plain number.
pub const LEAST_FINAL_AGE: u32 = 20;

pub const GREATEST_FINAL_AGE: u32 = 80;

// The lists in the order of the table book. The first five are yearly chances, in millionths.
#[derive(Clone, Copy, PartialEq, Eq, Debug)]
pub enum Kind {
    // i: an active becomes invalid
    Invalidity,
    // qaa: an active dies as an active
    ActiveDeath,
    // qi: an invalid dies
    InvalidDeath,
    // qg: a person of the whole population dies
    PopulationDeath,
    // qw: a widow dies
    WidowDeath,
    // h: the chance of being married at death, in millionths
    Married,
    // y: the spouse's age in whole years then
    SpouseAge,
}

impl Kind {
    pub const ALL: [Kind; 7] = [
        Kind::Invalidity,
        Kind::ActiveDeath,
        Kind::InvalidDeath,
        Kind::PopulationDeath,
        Kind::WidowDeath,
        Kind::Married,
        Kind::SpouseAge,
    ];

    // The kind's number in a book, 1 to 7: the enum's own order, so that no second table stands beside it.
    pub fn rank(self) -> u8
        ensures { result ≡ rank self }
    {
        self as u8 + 1
    }

    // How many ages the list has: those of an active end before the final age.
    pub fn count(self, final_age: u32) -> u32
        ensures { result ≡ count final_age self }
    {
        match self {
            Kind::Invalidity | Kind::ActiveDeath => final_age,
            _ => AGES,
        }
    }

    // The greatest figure that the list may have.
    pub fn limit(self) -> u32
        ensures { result ≡ limit self }
    {
        match self {
            Kind::SpouseAge => LAST_AGE,
            _ => CERTAIN,
        }
    }
}

// A list is printed by its name in formulas.
impl fmt::Display for Kind {
    ghost output = { λ k. Some (symbol k) };

    fn fmt<W: fmt::Write>(&self, f: &mut fmt::Formatter<W>) -> fmt::Result {
        f.pad(match self {
            Kind::Invalidity => "i",
            Kind::ActiveDeath => "qaa",
            Kind::InvalidDeath => "qi",
            Kind::PopulationDeath => "qg",
            Kind::WidowDeath => "qw",
            Kind::Married => "h",
            Kind::SpouseAge => "y",
        })
    }
}
