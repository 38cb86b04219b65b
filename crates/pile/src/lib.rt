// A basis that is chosen at run time: any number of shifts and loadings over either bottom.
#![tactic(auto)]

pub mod bottom;
pub mod layer;
mod question;

ghost use Rattle.std.specs.Prelude.{◌≡◌, [], ◌∷◌, ◌++◌, is_ok, if◌then◌else◌};
ghost use Rattle.std.specs.Option.{option_map};
ghost use Rattle.pile.specs.Pile.{bottom_figures, laid, pile_figures, table_of};
ghost use Rattle.pile.specs.Piles.{bottom_lawful, piled_lawful};

use crate::bottom::Bottom;
use crate::layer::Layer;
use crate::question::{ascend, descend};
use basis::interface::Basis;
use basis::kind::Kind;
use std::alloc::{AllocError, Global};
use table::Table;

// A bottom and the layers over it, the lowest first.
#[derive(Drop)]
pub struct Pile {
    bottom: Bottom,
    layers: Vec<Layer>,
}

impl Pile {
    // A pile of no layers.
    pub fn on(heap: Global, bottom: Bottom) -> Pile
        ensures bottom { result.bottom ≡ bottom }
        ensures layers { result.layers.items ≡ [] }
        ensures figures { pile_figures result ≡ bottom_figures bottom }
    {
        Pile {
            bottom,
            layers: Vec::new(heap),
        }
    }

    // Lays one more layer on top: the figures become those that the same shift or loading alone has over the figures
    // before. Where there is no memory for the layer, the pile stays as it was.
    pub fn lay(&mut self, layer: Layer) -> Result<(), AllocError>
        ensures bottom { self.new.bottom ≡ self.old.bottom }
        ensures layers { self.new.layers.items ≡ (if is_ok result then self.old.layers.items ++ layer ∷ [] else self.old.layers.items) }
        ensures figures { pile_figures self.new ≡ (if is_ok result then laid layer (pile_figures self.old) else pile_figures self.old) }
    {
        self.layers.push(layer)?;
        Ok(())
    }

    // The table at the bottom, if there is one.
    pub fn table(&self) -> Option<&Table>
        ensures { option_map (λ x. x.now) result ≡ table_of self.now.bottom }
    {
        match &self.bottom {
            Bottom::Line(_) => None,
            Bottom::Table(table) => Some(table),
        }
    }
}

impl Basis for Pile {
    ghost figures = { pile_figures };

    ghost lawful = { λ b. piled_lawful b.layers.items (bottom_figures b.bottom) (bottom_lawful b.bottom) };

    fn final_age(&self) -> u32 {
        self.bottom.final_age()
    }

    fn figure(&self, kind: Kind, age: u32) -> u32 {
        let final_age = self.bottom.final_age();
        if age >= kind.count(final_age) {
            return 0;
        }
        let (above, age) = descend(&self.layers, final_age, kind, age);
        ascend(&self.bottom, above, kind, age)
    }
}

#[cfg(test)]
mod tests {
    use super::*;
    use basis::loading::Loading;
    use basis::setting::Setting;
    use basis::shift::Shift;
    use basis::straight_line::StraightLine;
    use std::test::Fail;

    // A pile answers as the same layers do when they are fixed in the program.
    #[test]
    fn like_fixed_layers(rt: HostRuntime) -> Result<(), Fail> {
        let line = StraightLine::new(65, 3_000)?;
        let (low, shift, high) = (Loading::new(700)?, Shift::new(5)?, Loading::new(1_900)?);
        let mut pile = Pile::on(rt.alloc(), Bottom::Line(line));
        pile.lay(Layer::Loading(low))?;
        pile.lay(Layer::Shift(shift))?;
        pile.lay(Layer::Loading(high))?;
        let fixed = high.over(shift.over(low.over(line)));
        for kind in Kind::ALL {
            assert_eq!(rt; pile.figure(kind, 62), fixed.figure(kind, 62));
            assert_eq!(rt; pile.figure(kind, 65), fixed.figure(kind, 65));
            assert_eq!(rt; pile.figure(kind, 117), fixed.figure(kind, 117));
            assert_eq!(rt; pile.figure(kind, 121), fixed.figure(kind, 121));
        }
        assert!(rt; pile.table().is_none());
        Ok(())
    }
}
