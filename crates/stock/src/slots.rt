// The inner table of a stock: its places, and the totals carried forward.
ghost use Rattle.std.specs.Prelude.{◌≡◌, ◌<◌, length, replicate, Some, None, is_none, is_some, sum_by, count_by, position, slice_set};
ghost use Rattle.fault.specs.Faults.{Outcome};
ghost use Rattle.stock.specs.Slots.{Holds, Vacant, found, has_key, high_of, low_of, missing_fault, vacancy_fault};

use crate::record::Record;
use fault::{Fault, Refusal};
use valuation::pair::Pair;

// How many promises a stock has room for: a table of fixed room, and no heap, is a rule of the project.
pub(crate) const PLACES: usize = 512;

// What a free place adds to the totals.
const NOTHING: Pair = Pair { lower: 0, upper: 0 };

#[derive(Drop)]
pub(crate) struct Slots {
    pub(crate) records: [Option<Record>; PLACES],
    pub(crate) total: Pair,
    pub(crate) count: u64,
    ghost full: { length records ≡ 512 },
    ghost lows: { total.lower ≡ sum_by low_of records },
    ghost highs: { total.upper ≡ sum_by high_of records },
    ghost counted: { count ≡ count_by is_some records },
}

// What a place adds to the totals.
fn adds(place: Option<Record>) -> Pair
    ensures low { result.lower ≡ low_of place }
    ensures high { result.upper ≡ high_of place }
{
    place.map_or(NOTHING, |record| record.pair)
}

impl Slots {
    pub(crate) fn empty() -> Slots
        ensures { result.records ≡ replicate 512 None }
    {
        Slots {
            records: [None; PLACES],
            total: NOTHING,
            count: 0,
        }
    }

    // Changes one place, and carries the totals forward; all other places remain.
    pub(crate) fn put(&mut self, place: usize, new: Option<Record>)
        requires { place < 512 }
        ensures { self.new.records ≡ slice_set self.old.records place new }
    {
        let old = self.records[place];
        self.records[place] = new;
        let removed = adds(old);
        let added = adds(new);
        self.total = Pair {
            lower: self.total.lower - removed.lower + added.lower,
            upper: self.total.upper - removed.upper + added.upper,
        };
        self.count = self.count - u64::from(old.is_some()) + u64::from(new.is_some());
    }

    // The place of a key, if it has one. A loop with its test by name: the iterator's `position` takes nearly twice as long
    // over a full stock, with each closure that was tried, and so does a loop with an `if let`.
    fn place_of(&self, key: u32) -> Option<usize>
        ensures { result ≡ position (has_key key) self.now.records }
    {
        for (i, place) in self.records.iter().enumerate() {
            if has_key(*place, key) {
                return Some(i);
            }
        }
        None
    }

    // A free place, if there is one.
    fn free(&self) -> Option<usize>
        ensures { result ≡ position is_none self.now.records }
    {
        self.records.iter().position(|place| place.is_none())
    }

    // The place of a key that is in force.
    pub(crate) fn held(&self, key: u32) -> Result<usize, Fault>
        ensures { Outcome result (missing_fault self.now.records key) (Holds self.now.records key) }
    {
        self.place_of(key).ok_or(Refusal::Unknown.into())
    }

    // A place for a key that is not.
    pub(crate) fn vacancy(&self, key: u32) -> Result<usize, Fault>
        ensures { Outcome result (vacancy_fault self.now.records key) (Vacant self.now.records key) }
    {
        if self.place_of(key).is_some() {
            return Err(Refusal::Known.into());
        }
        self.free().ok_or(Refusal::Full.into())
    }

    // The pair of a key that is in force.
    pub(crate) fn pair_of(&self, key: u32) -> Result<Pair, Fault>
        ensures { Outcome result (missing_fault self.now.records key) (λ pair. found self.now.records key ≡ Some pair) }
    {
        let place = self.held(key)?;
        Ok(self.records[place].unwrap().pair)
    }
}

fn has_key(place: Option<Record>, key: u32) -> bool
    ensures { result ≡ has_key key place }
{
    match place {
        Some(record) => record.key == key,
        None => false,
    }
}
