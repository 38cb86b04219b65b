// What is laid over a basis, and the layer that comes of it.
ghost use Rattle.std.specs.Prelude.{◌≡◌};
ghost use Rattle.basis.specs.Figures.{Figures, Lawful};

use crate::interface::Basis;
use crate::kind::Kind;

// A setting, as of a shift or a loading, is laid over any basis.
pub trait Setting: Sized {
    // the figures of its layer, told by those below
    ghost laid: { Self → Figures → Figures };

    // The list's figure at an age, over a basis.
    fn figure_over<B: Basis>(&self, below: &B, kind: Kind, age: u32) -> u32
        ensures { result ≡ (laid self.now (B.figures below.now)).figure kind age };

    // The layer.
    fn over<B: Basis>(self, below: B) -> Laid<Self, B>
        ensures { (result.setting ≡ self) × (result.below ≡ below) }
    {
        Laid {
            setting: self,
            below,
        }
    }

    // the final age passes
    ghost aged: { (s : Self) (f : Figures) → (laid s f).final_age ≡ f.final_age };

    // over lawful figures a layer obeys the laws
    ghost lawful: { (s : Self) (f : Figures) → Lawful f → Lawful (laid s f) };
}

// The layer: a setting over any basis.
#[derive(Clone, Copy, Drop)]
pub struct Laid<S, B> {
    setting: S,
    below: B,
}

impl<S: Setting, B: Basis> Basis for Laid<S, B> {
    ghost figures = { λ b. S.Setting.laid b.setting (B.Basis.figures b.below) };

    ghost lawful = { λ b. S.Setting.lawful b.setting (B.Basis.figures b.below) (B.Basis.lawful b.below) };

    fn final_age(&self) -> u32 {
        self.below.final_age()
    }

    fn figure(&self, kind: Kind, age: u32) -> u32 {
        self.setting.figure_over(&self.below, kind, age)
    }
}
