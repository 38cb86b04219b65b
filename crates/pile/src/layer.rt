// What is laid over a bottom, and how a question passes through one layer.
ghost use Rattle.std.specs.Prelude.{◌≡◌};
ghost use Rattle.pile.specs.Question.{age_below, chance_above};

use basis::kind::Kind;
use basis::loading::Loading;
use basis::shift::Shift;

#[derive(Clone, Copy)]
pub enum Layer {
    Shift(Shift),
    Loading(Loading),
}

impl Layer {
    // The age at which a list is read below the layer.
    pub(crate) fn age_below(self, final_age: u32, kind: Kind, age: u32) -> u32
        ensures { result ≡ age_below final_age self kind age }
    {
        match self {
            Layer::Shift(shift) => shift.read_age(final_age, kind, age),
            Layer::Loading(_) => age,
        }
    }

    // A chance of death from below the layer, raised to at most the given chance.
    pub(crate) fn chance_above(self, chance: u32, most: u32) -> u32
        ensures { result ≡ chance_above self chance most }
    {
        match self {
            Layer::Shift(_) => chance,
            Layer::Loading(loading) => loading.raised(chance, most),
        }
    }
}
