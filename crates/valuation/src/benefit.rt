// The sixteen benefits that a promise may be of.
ghost use Rattle.std.specs.Prelude.{◌≡◌, MatchOption, ◌≢◌, Some};
ghost use Rattle.valuation.specs.Benefits.{name, first_age, last_age, span};
ghost use Rattle.valuation.specs.Streams.{leaves_widow, retires_to, stream_of, turns_to};
ghost use Rattle.valuation.specs.declared.benefit.Benefit.{Benefit as Kinds};

use crate::stream::{Level, Stream};
use basis::kind::{Kind, LAST_AGE};
use std::fmt;

// Seven of a life that goes on to the last age, then nine of an active who is followed to the final age.
#[derive(Clone, Copy, PartialEq, Eq, Debug)]
pub enum Benefit {
    // r: the pension of a pensioner
    Retired,
    // g: the pension of a person of the whole population
    Population,
    // i: the pension of an invalid
    Invalid,
    // w: the pension of a widow or widower
    Widow,
    // rw: the widow's pension after a pensioner's death
    RetiredWidow,
    // gw: the widow's pension after the death of a person of the whole population
    PopulationWidow,
    // iw: the widow's pension after an invalid's death
    InvalidWidow,
    // a: a pension while active
    Active,
    // aA: the retirement pension of an active
    ActiveRetirement,
    // ai: the invalidity pension of an active
    ActiveInvalidity,
    // aiA: both
    ActiveInvalidityRetirement,
    // caaw: the widow's pension if an active dies as an active
    ActiveDeathWidow,
    // aAw: the widow's pension if an active dies after retirement
    ActiveRetiredWidow,
    // aaw: both
    ActiveOrRetiredWidow,
    // aiw: the widow's pension if an active dies as an invalid
    ActiveInvalidWidow,
    // aw: the widow's pension whenever an active dies
    ActiveWidow,
}

impl Benefit {
    pub const ALL: [Benefit; 16] = [
        Benefit::Retired,
        Benefit::Population,
        Benefit::Invalid,
        Benefit::Widow,
        Benefit::RetiredWidow,
        Benefit::PopulationWidow,
        Benefit::InvalidWidow,
        Benefit::Active,
        Benefit::ActiveRetirement,
        Benefit::ActiveInvalidity,
        Benefit::ActiveInvalidityRetirement,
        Benefit::ActiveDeathWidow,
        Benefit::ActiveRetiredWidow,
        Benefit::ActiveOrRetiredWidow,
        Benefit::ActiveInvalidWidow,
        Benefit::ActiveWidow,
    ];

    pub fn name(self) -> &'static str
        ensures { result.now ≡ name self }
    {
        match self {
            Benefit::Retired => "r",
            Benefit::Population => "g",
            Benefit::Invalid => "i",
            Benefit::Widow => "w",
            Benefit::RetiredWidow => "rw",
            Benefit::PopulationWidow => "gw",
            Benefit::InvalidWidow => "iw",
            Benefit::Active => "a",
            Benefit::ActiveRetirement => "aA",
            Benefit::ActiveInvalidity => "ai",
            Benefit::ActiveInvalidityRetirement => "aiA",
            Benefit::ActiveDeathWidow => "caaw",
            Benefit::ActiveRetiredWidow => "aAw",
            Benefit::ActiveOrRetiredWidow => "aaw",
            Benefit::ActiveInvalidWidow => "aiw",
            Benefit::ActiveWidow => "aw",
        }
    }

    // The benefit of a name, if the name is one: an Option and no `FromStr`, since no refusal stands for another name.
    pub fn from_name(text: &str) -> Option<Benefit>
        ensures { MatchOption result ((b : Kinds) → name b ≢ text.now) (λ b. name b ≡ text.now) }
    {
        for benefit in Benefit::ALL {
            if benefit.name() == text {
                return Some(benefit);
            }
        }
        None
    }

    // The least age of a promise of this benefit, under a final age.
    pub fn first_age(self, final_age: u32) -> u32
        ensures { result ≡ first_age final_age self }
    {
        match self {
            Benefit::Retired | Benefit::RetiredWidow => final_age,
            _ => 0,
        }
    }

    // The greatest one, which is also the age in the path's last year.
    pub fn last_age(self, final_age: u32) -> u32
        ensures { result ≡ last_age final_age self }
    {
        match self {
            Benefit::Retired
            | Benefit::Population
            | Benefit::Invalid
            | Benefit::Widow
            | Benefit::RetiredWidow
            | Benefit::PopulationWidow
            | Benefit::InvalidWidow => LAST_AGE,
            _ => final_age,
        }
    }

    // How many years a path has from an age on, and so how many amounts its promise: 0 past the last age.
    pub fn span(self, final_age: u32, age: u32) -> usize
        ensures { result ≡ span final_age self age }
    {
        (self.last_age(final_age) as usize + 1).saturating_sub(age as usize)
    }

    // The stream of a life's benefit; an active's has none.
    pub(crate) fn stream(self) -> Option<Stream>
        ensures { result ≡ stream_of self }
    {
        let (population, level) = match self {
            Benefit::Retired | Benefit::Population => (Kind::PopulationDeath, Level::Pensions),
            Benefit::Invalid => (Kind::InvalidDeath, Level::Pensions),
            Benefit::Widow => (Kind::WidowDeath, Level::Pensions),
            Benefit::RetiredWidow | Benefit::PopulationWidow => {
                (Kind::PopulationDeath, Level::Widows)
            }
            Benefit::InvalidWidow => (Kind::InvalidDeath, Level::Widows),
            _ => return None,
        };
        Some(Stream { population, level })
    }

    // What an active's benefit pays along the whole population from retirement on.
    pub(crate) fn retirement(self) -> Option<Level>
        ensures { result ≡ retires_to self }
    {
        match self {
            Benefit::ActiveRetirement | Benefit::ActiveInvalidityRetirement => {
                Some(Level::Pensions)
            }
            Benefit::ActiveRetiredWidow | Benefit::ActiveOrRetiredWidow | Benefit::ActiveWidow =>
                Some(Level::Widows),
            _ => None,
        }
    }

    // And along the invalids from invalidity on.
    pub(crate) fn invalidity(self) -> Option<Level>
        ensures { result ≡ turns_to self }
    {
        match self {
            Benefit::ActiveInvalidity | Benefit::ActiveInvalidityRetirement => {
                Some(Level::Annuities)
            }
            Benefit::ActiveInvalidWidow | Benefit::ActiveWidow => Some(Level::Widows),
            _ => None,
        }
    }

    // Whether a death leaves a widow's pension.
    pub(crate) fn leaves_widow(self) -> bool
        ensures { result ≡ leaves_widow self }
    {
        match self {
            Benefit::RetiredWidow
            | Benefit::PopulationWidow
            | Benefit::InvalidWidow
            | Benefit::ActiveDeathWidow
            | Benefit::ActiveRetiredWidow
            | Benefit::ActiveOrRetiredWidow
            | Benefit::ActiveInvalidWidow
            | Benefit::ActiveWidow => true,
            _ => false,
        }
    }
}

// A benefit is printed by its name.
impl fmt::Display for Benefit {
    ghost output = { λ b. Some (name b) };

    fn fmt<W: fmt::Write>(&self, f: &mut fmt::Formatter<W>) -> fmt::Result {
        f.pad(self.name())
    }
}
