// What the programs read from their lines.
#![tactic(auto)]

ghost use Rattle.std.specs.Prelude.{◌≡◌, ◌++◌, OnOk, OnErr, IsErr, OkIff, MatchOption, replicate};
ghost use Rattle.input.specs.Number.{IsUnsigned, number_of};

use anyhow::Context;
use std::alloc::AllocError;
use std::num::ParseIntError;
use std::str::FromStr;

// An amount for a number of years, as a word writes it: `A`, or `N*A` for N times A.
#[derive(Clone, Copy, PartialEq, Eq, Debug)]
pub struct Repeated {
    pub times: u16,
    pub amount: u32,
}

// The amount is read first, so that its error comes before that of the times.
impl FromStr for Repeated {
    type Err = ParseIntError;

    ghost use Rattle.input.specs.Repeated.{ReadsRepeated};

    ghost from_str_gives = { ReadsRepeated };

    fn from_str(word: &str) -> Result<Repeated, ParseIntError> {
        let (times, amount) = word.split_once('*').unwrap_or(("1", word));
        let amount = amount.parse::<u32>()?;
        let times = times.parse::<u16>()?;
        Ok(Repeated { times, amount })
    }
}

impl Repeated {
    // Appends the amount once for each of its years. Where there is no memory for them, the amounts stay as they were. The
    // sum fits, since no `Vec` of numbers comes near the end of `usize`.
    pub fn push_onto(self, amounts: &mut Vec<u32>) -> Result<(), AllocError>
        ensures ok { OnOk result (amounts.new.items ≡ amounts.old.items ++ replicate self.times self.amount) }
        ensures err { OnErr result (amounts.new.items ≡ amounts.old.items) }
    {
        let length = amounts.len() + usize::from(self.times);
        amounts.resize(length, self.amount)
    }
}

// The word as a number, with a message of this crate's own where there is no word.
pub fn number(word: Option<&str>) -> anyhow::Result<u64>
    ensures { MatchOption word.entry (IsErr result) (λ w. OkIff result (IsUnsigned 64 w.now) (number_of w.now)) }
{
    Ok(word.context("a number is missing")?.parse::<u64>()?)
}

// The word as a number of 32 bits. It is read as one of 64 bits, and what is too large for 32 gives the error of `try_from`.
pub fn small_number(word: Option<&str>) -> anyhow::Result<u32>
    ensures { MatchOption word.entry (IsErr result) (λ w. OkIff result (IsUnsigned 32 w.now) (number_of w.now)) }
{
    Ok(u32::try_from(number(word)?)?)
}

#[cfg(test)]
mod tests {
    use super::*;
    use std::test::Fail;

    #[test]
    fn words_become_amounts(rt: HostRuntime) -> Result<(), Fail> {
        let mut amounts = Vec::new(rt.alloc());
        "3*1200".parse::<Repeated>()?.push_onto(&mut amounts)?;
        "7".parse::<Repeated>()?.push_onto(&mut amounts)?;
        assert_eq!(rt; amounts.as_slice(), [1200, 1200, 1200, 7].as_slice());
        Ok(())
    }

    #[test]
    fn times_are_a_number(rt: HostRuntime) {
        assert!(rt; "x*5".parse::<Repeated>().is_err());
    }

    #[test]
    fn words_become_numbers(rt: HostRuntime) -> Result<(), Fail> {
        assert_eq!(rt; number(Some("4294967296"))?, 4_294_967_296);
        assert_eq!(rt; small_number(Some("4294967295"))?, 4_294_967_295);
        assert!(rt; number(None).is_err());
        assert!(rt; small_number(Some("4294967296")).is_err());
        Ok(())
    }
}
