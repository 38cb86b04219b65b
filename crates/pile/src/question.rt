// How a question passes through the layers of a pile: its age goes down, and the figure that is read there comes up.
ghost use Rattle.std.specs.Prelude.{◌≡◌, ◌<◌};
ghost use Rattle.basis.specs.Figures.{Figures, Lawful, count};
ghost use Rattle.pile.specs.Pile.{bottom_figures, piled};
ghost use Rattle.pile.specs.Question.{carried, greatest, risen};

use crate::bottom::Bottom;
use crate::layer::Layer;
use basis::interface::Basis;
use basis::kind::{CERTAIN, Kind, LAST_AGE};

// Takes a question down the layers to the bottom, but at the last age no further, since of that age all below tell the
// same. Answers the layers left above the question, which begin at a depth, and the age that it has under them.
pub(crate) fn descend(layers: &[Layer], final_age: u32, kind: Kind, mut age: u32) -> (&[Layer], u32)
    ensures { (f : Figures) → Lawful f → f.final_age ≡ final_age → age < count f.final_age kind → carried kind (greatest f kind result.1) result.0.now (f.figure kind result.1) ≡ (piled layers.now f).figure kind age }
{
    for (depth, layer) in layers.iter().enumerate().rev() {
        if age == LAST_AGE {
            return (&layers[depth + 1..], age);
        }
        age = layer.age_below(final_age, kind, age);
    }
    (layers, age)
}

// The bottom's figure at an age, as it comes up through these layers.
pub(crate) fn ascend(bottom: &Bottom, above: &[Layer], kind: Kind, age: u32) -> u32
    ensures { result ≡ carried kind (greatest (bottom_figures bottom.now) kind age) above.now ((bottom_figures bottom.now).figure kind age) }
{
    let figure = bottom.figure(kind, age);
    match kind {
        Kind::Invalidity | Kind::Married | Kind::SpouseAge => figure,
        Kind::ActiveDeath => rise(
            above,
            figure,
            CERTAIN - bottom.figure(Kind::Invalidity, age),
        ),
        _ => rise(above, figure, CERTAIN),
    }
}

// A chance of death from below these layers, raised by each in turn to at most the given chance.
fn rise(layers: &[Layer], mut chance: u32, most: u32) -> u32
    ensures { result ≡ risen layers.now chance most }
{
    for layer in layers {
        chance = layer.chance_above(chance, most);
    }
    chance
}
