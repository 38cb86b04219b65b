// The figures of a table basis as plain arrays, before the laws of a basis are known of them.
ghost use Rattle.std.specs.Prelude.{◌≡◌, ℕ, ◌<◌, ◌≤◌, slice_index};
ghost use Rattle.basis.specs.Figures.{count};

use basis::interface::Basis;
use basis::kind::Kind;

// How many figures a row has room for: one for each age.
const ROW: usize = 121;

#[derive(Clone, Copy)]
pub(crate) struct Rows {
    pub(crate) final_age: u32,
    // a row for each kind, in the kinds' order
    lists: [[u32; ROW]; 7],
    ghost old_enough: { 20 ≤ final_age },
    ghost young_enough: { final_age ≤ 80 },
}

impl Rows {
    ghost use Rattle.table.specs.Table.{row_of, tabled};

    // The rows of the figures that a function tells by kind and age. They are one array's literal, so that each is filled
    // where it stays: rows that are put into an array one by one are copied, and reading a book takes twice as long.
    pub(crate) fn from_fn<F: Fn(Kind, u32) -> u32>(final_age: u32, figure: F) -> Rows
        requires old_enough { 20 ≤ final_age }
        requires young_enough { final_age ≤ 80 }
        requires callable { F.IsAlwaysCallable figure }
        ensures aged { result.final_age ≡ final_age }
        ensures told { (k : Kind) (x : ℕ) → x < count result.final_age k → F.post figure k x (slice_index (row_of result k) x) }
    {
        Rows {
            final_age,
            lists: [
                row_from_fn(&figure, final_age, Kind::Invalidity),
                row_from_fn(&figure, final_age, Kind::ActiveDeath),
                row_from_fn(&figure, final_age, Kind::InvalidDeath),
                row_from_fn(&figure, final_age, Kind::PopulationDeath),
                row_from_fn(&figure, final_age, Kind::WidowDeath),
                row_from_fn(&figure, final_age, Kind::Married),
                row_from_fn(&figure, final_age, Kind::SpouseAge),
            ],
        }
    }

    // The list's figure at an age, 0 at an age that the list has not.
    pub(crate) fn figure(&self, kind: Kind, age: u32) -> u32
        ensures { result ≡ (tabled self.now).figure kind age }
    {
        if age >= kind.count(self.final_age) {
            return 0;
        }
        self.lists[kind as usize][age as usize]
    }
}

// A kind's row, as far as its list goes: a loop, since a closure of an array's `from_fn` needs clauses of its own, which are
// longer.
fn row_from_fn<F: Fn(Kind, u32) -> u32>(figure: &F, final_age: u32, kind: Kind) -> [u32; ROW]
    requires young_enough { final_age ≤ 80 }
    requires callable { F.IsAlwaysCallable figure.now }
    ensures { (x : ℕ) → x < count final_age kind → F.post figure.now kind x (slice_index result x) }
{
    let mut row = [0; ROW];
    for age in 0..kind.count(final_age) {
        row[age as usize] = figure(kind, age);
    }
    row
}

// The figures of any basis.
impl<B: Basis> From<&B> for Rows {
    ghost use Rattle.table.specs.Table.{tabled};

    ghost from_gives = { λ basis rows. tabled rows ≡ B.Basis.figures basis.now };

    fn from(basis: &B) -> Rows {
        Rows::from_fn(basis.final_age(), |kind, age| basis.figure(kind, age))
    }
}
