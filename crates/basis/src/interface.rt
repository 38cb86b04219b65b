// The interface that valuation and stock are written over.
ghost use Rattle.std.specs.Prelude.{◌≡◌, ℕ};
ghost use Rattle.basis.specs.Figures.{Figures, Lawful};

use crate::kind::Kind;

// A basis is asked for its final age or for one figure. Every answer is told by its figures alone, so a question
// repeated has the same answer, and none alters the basis.
pub trait Basis {
    // what the basis means
    ghost figures: { Self → Figures };

    fn final_age(&self) -> u32
        ensures { result ≡ (figures self.now).final_age };

    // The list's figure at an age, 0 at an age that the list has not. The question is two words and no record, since every
    // figure would take it apart at once.
    fn figure(&self, kind: Kind, age: u32) -> u32
        ensures { result ≡ (figures self.now).figure kind age };

    // no basis breaks a law
    ghost lawful: { (b : Self) → Lawful (figures b) };
}
