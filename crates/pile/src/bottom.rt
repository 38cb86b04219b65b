// The two bases that a pile can stand on: an enum and no `dyn`, since there are these two and a bottom is copied.
ghost use Rattle.pile.specs.Pile.{bottom_figures};
ghost use Rattle.pile.specs.Piles.{bottom_lawful};

use basis::interface::Basis;
use basis::kind::Kind;
use basis::straight_line::StraightLine;
use table::Table;

#[derive(Clone, Copy)]
pub enum Bottom {
    Line(StraightLine),
    Table(Table),
}

impl Basis for Bottom {
    ghost figures = { bottom_figures };

    ghost lawful = { λ b. bottom_lawful b };

    fn final_age(&self) -> u32 {
        match self {
            Bottom::Line(line) => line.final_age(),
            Bottom::Table(table) => table.final_age(),
        }
    }

    fn figure(&self, kind: Kind, age: u32) -> u32 {
        match self {
            Bottom::Line(line) => line.figure(kind, age),
            Bottom::Table(table) => table.figure(kind, age),
        }
    }
}
