// The calls of a stock as data, and their answers.
ghost use Rattle.std.specs.Prelude.{Some};
ghost use Rattle.stock.specs.Printed.{answer_text, call_text};

use std::fmt;
use valuation::pair::Pair;
use valuation::promise::Promise;

// A call with its arguments: a key, a promise, and of the lent column its length.
// The three are no record, since they are the arguments of the stock's own methods, in their order.
#[derive(Clone, Copy, PartialEq, Eq, Debug)]
pub enum Call<'a> {
    Total,
    Count,
    // the pair of a key's promise
    Promise(u32),
    Release(u32),
    Admit(u32, Promise<'a>, usize),
    Amend(u32, Promise<'a>, usize),
}

#[derive(Clone, Copy, PartialEq, Eq, Debug)]
pub enum Answer {
    Done,
    Cents(Pair),
    Number(u64),
}

// A call is printed by its name, its key, and its promise's benefit and age.
impl fmt::Display for Call<'_> {
    ghost output = { λ c. Some (call_text c) };

    fn fmt<W: fmt::Write>(&self, f: &mut fmt::Formatter<W>) -> fmt::Result {
        match self {
            Call::Total => write!(f, "total"),
            Call::Count => write!(f, "count"),
            Call::Promise(key) => write!(f, "promise {key}"),
            Call::Release(key) => write!(f, "release {key}"),
            Call::Admit(key, Promise { benefit, age, .. }, _) => {
                write!(f, "admit {key} {benefit} {age}")
            }
            Call::Amend(key, Promise { benefit, age, .. }, _) => {
                write!(f, "amend {key} {benefit} {age}")
            }
        }
    }
}

// An answer is printed as `done`, as a pair of cents, or as a number.
impl fmt::Display for Answer {
    ghost output = { λ a. Some (answer_text a) };

    fn fmt<W: fmt::Write>(&self, f: &mut fmt::Formatter<W>) -> fmt::Result {
        match self {
            Answer::Done => write!(f, "done"),
            Answer::Cents(pair) => write!(f, "{pair} cents"),
            Answer::Number(number) => write!(f, "{number}"),
        }
    }
}

#[cfg(test)]
mod tests {
    use super::*;
    use std::test::Fail;
    use valuation::benefit::Benefit;

    #[test]
    fn a_call_is_printed_by_its_name_and_promise(rt: HostRuntime) -> Result<(), Fail> {
        let promise = Promise {
            benefit: Benefit::Retired,
            age: 65,
            amounts: &[12_000],
        };
        let admit = Call::Admit(3, promise, 512);
        assert_eq!(rt; format!(in rt.alloc(); "{admit}")?.as_str(), "admit 3 r 65");
        Ok(())
    }

    #[test]
    fn an_answer_is_printed_in_cents(rt: HostRuntime) -> Result<(), Fail> {
        let pair = Pair { lower: 7, upper: 9 };
        let cents = Answer::Cents(pair);
        assert_eq!(rt; format!(in rt.alloc(); "{cents}")?.as_str(), "7 to 9 cents");
        Ok(())
    }
}
