// Calls played to a stock, one or many.
ghost use Rattle.std.specs.Prelude.{◌≡◌, List, ◌++◌, map};
ghost use Rattle.stock.specs.Handed.{told};
ghost use Rattle.stock.specs.Law.{EquallyOften};
ghost use Rattle.stock.specs.Register.{Call as Calls};
ghost use Rattle.stock.specs.Stocks.{AnswerIn, Answered, HasHad, Kept};
ghost use Rattle.stock.specs.Runs.{Encloses, TotalAfter, in_force_after};

use crate::call::{Answer, Call};
use crate::run::Run;
use crate::stock::Stock;
use basis::interface::Basis;
use fault::Fault;
use valuation::admission::LEAST_COLUMN;
use valuation::pair::Pair;

impl<B: Basis> Stock<B> {
    // Plays one call. A longer column is as good as the least, and no more of it is lent.
    pub fn play(&mut self, call: Call<'_>) -> Result<Answer, Fault>
        ensures { Answered B.figures self.old self.new (told call.entry) result (AnswerIn B.figures self.old (told call.entry)) }
    {
        match call {
            Call::Total => Ok(Answer::Cents(self.total())),
            Call::Count => Ok(Answer::Number(self.count())),
            Call::Promise(key) => Ok(Answer::Cents(self.promise(key)?)),
            Call::Release(key) => {
                self.release(key)?;
                Ok(Answer::Done)
            }
            Call::Admit(key, promise, column) => {
                let mut places = [0u64; LEAST_COLUMN];
                self.admit(key, promise, &mut places[..column.min(LEAST_COLUMN)])?;
                Ok(Answer::Done)
            }
            Call::Amend(key, promise, column) => {
                let mut places = [0u64; LEAST_COLUMN];
                self.amend(key, promise, &mut places[..column.min(LEAST_COLUMN)])?;
                Ok(Answer::Done)
            }
        }
    }

    // Plays calls one after another; a refused one changes nothing.
    pub fn run(&mut self, calls: &[Call<'_>])
        ensures had { (h : List Calls) → HasHad B.figures self.old h → HasHad B.figures self.new (h ++ map told calls.now) }
        ensures kept { Kept self.old self.new }
    {
        for call in calls {
            let _ = self.play(*call);
        }
    }
}

// The totals of a stock that is opened, and has had a run of calls.
pub fn replay<B: Basis + Drop>(run: Run<'_, B>) -> Pair
    ensures { TotalAfter B.figures run.entry result }
{
    let Run {
        basis,
        terms,
        calls,
    } = run;
    let mut stock = Stock::open(basis, terms);
    stock.run(calls);
    stock.total()
}

// THE LAW OF RUNS. Two stocks are opened, on bases of any two types and under any terms, and each has its calls, whatever they
// are, granted or refused. The totals of each enclose the exact sum of what its register has in force, and are as near to
// each other as is promised; and if both have the same figures and terms, and each promise stands equally often in both
// registers, under whatever keys, the totals are equal.
pub fn compare<A: Basis + Drop, B: Basis + Drop>(one: Run<'_, A>, other: Run<'_, B>) -> (Pair, Pair)
    ensures one { Encloses A.figures one.entry result.0 }
    ensures other { Encloses B.figures other.entry result.1 }
    ensures equal { A.figures one.entry.basis ≡ B.figures other.entry.basis → one.entry.terms.interest ≡ other.entry.terms.interest → one.entry.terms.instalments ≡ other.entry.terms.instalments → EquallyOften (in_force_after A.figures one.entry) (in_force_after B.figures other.entry) → result.0 ≡ result.1 }
{
    (replay(one), replay(other))
}
