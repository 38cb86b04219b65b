// The stock and its six calls.
ghost use Rattle.std.specs.Prelude.{◌≡◌, [], length};
ghost use Rattle.fault.specs.Faults.{Outcome};
ghost use Rattle.stock.specs.Handed.{promised};
ghost use Rattle.stock.specs.Register.{Admit, Amend, Ask, Count, Release, Total, promise_fault};
ghost use Rattle.stock.specs.Stocks.{Answered, HasHad, Heeded, PairIn, Silent, Tells, TotalIn, WorthyIn};

use crate::record::Record;
use crate::slots::Slots;
use basis::interface::Basis;
use fault::Fault;
use valuation::pair::Pair;
use valuation::promise::Promise;
use valuation::terms::Terms;
use valuation::value::value;

// Promises on one basis under one set of terms, each under a key.
#[derive(Drop)]
pub struct Stock<B: Basis> {
    pub(crate) basis: B,
    pub(crate) terms: Terms,
    pub(crate) slots: Slots,
}

impl<B: Basis> Stock<B> {
    // A stock with nothing in force.
    pub fn open(basis: B, terms: Terms) -> Stock<B>
        ensures kept { (result.basis ≡ basis) × (result.terms ≡ terms) }
        ensures had { HasHad B.figures result [] }
    {
        Stock {
            basis,
            terms,
            slots: Slots::empty(),
        }
    }

    // The pair of a promise on this stock's basis, under its terms.
    // Key, promise and column are no record: the promise is what is valued, and the column is lent for this call alone.
    fn worth(&self, key: u32, promise: Promise<'_>, column: &mut [u64]) -> Result<Record, Fault>
        ensures { Outcome result (promise_fault (B.figures self.now.basis).final_age (promised promise.entry) (length column.old)) (λ x. (x.key ≡ key) × WorthyIn B.figures self.now (promised promise.entry) x.pair) }
    {
        let pair = value(&self.basis, self.terms, promise, column)?;
        Ok(Record { key, pair })
    }

    // Enters a promise under a key that is not in force.
    pub fn admit(&mut self, key: u32, promise: Promise<'_>, column: &mut [u64]) -> Result<(), Fault>
        ensures { Answered B.figures self.old self.new (Admit key (promised promise.entry) (length column.old)) result Silent }
    {
        let new = self.worth(key, promise, column)?;
        let place = self.slots.vacancy(key)?;
        self.slots.put(place, Some(new));
        Ok(())
    }

    // Puts a new promise in a key's place: as admit does, but a call of its own, and the place is the key's.
    pub fn amend(&mut self, key: u32, promise: Promise<'_>, column: &mut [u64]) -> Result<(), Fault>
        ensures { Answered B.figures self.old self.new (Amend key (promised promise.entry) (length column.old)) result Silent }
    {
        let changed = self.worth(key, promise, column)?;
        let place = self.slots.held(key)?;
        self.slots.put(place, Some(changed));
        Ok(())
    }

    // Ends a key's promise, and frees its place.
    pub fn release(&mut self, key: u32) -> Result<(), Fault>
        ensures { Answered B.figures self.old self.new (Release key) result Silent }
    {
        let freed = self.slots.held(key)?;
        self.slots.put(freed, None);
        Ok(())
    }

    // The pair of a key's promise.
    pub fn promise(&self, key: u32) -> Result<Pair, Fault>
        ensures { Heeded B.figures self.now self.now (Ask key) result (PairIn B.figures self.now key) }
    {
        self.slots.pair_of(key)
    }

    // The totals of all that is in force.
    pub fn total(&self) -> Pair
        ensures { Tells B.figures self.now Total (λ es. TotalIn B.figures self.now es result) }
    {
        self.slots.total
    }

    // How many promises are in force.
    pub fn count(&self) -> u64
        ensures { Tells B.figures self.now Count (λ es. result ≡ length es) }
    {
        self.slots.count
    }
}
