// Where things stand in a table book.
ghost use Rattle.std.specs.Prelude.{◌≡◌};
ghost use Rattle.table.specs.Book.{entry_place, body_place, book_length};

use basis::kind::Kind;

// The edition that is read and written.
pub(crate) const EDITION: u8 = 1;

// Where the bodies begin: after the edition, the final age and seven entries of five bytes.
pub(crate) const CONTENTS_END: usize = 37;

// Where a kind's entry stands among the contents.
pub(crate) fn entry_place(kind: Kind) -> usize
    ensures { result ≡ entry_place kind }
{
    2 + 5 * (kind.rank() as usize - 1)
}

// Where a kind's figures begin.
pub(crate) fn body_place(kind: Kind, final_age: u32) -> usize
    ensures { result ≡ body_place final_age kind }
{
    let active = final_age as usize;
    let before = match kind {
        Kind::Invalidity => 0,
        Kind::ActiveDeath => active,
        Kind::InvalidDeath => 2 * active,
        Kind::PopulationDeath => 2 * active + 121,
        Kind::WidowDeath => 2 * active + 242,
        Kind::Married => 2 * active + 363,
        Kind::SpouseAge => 2 * active + 484,
    };
    CONTENTS_END + 4 * before
}

// How many bytes the book of this final age has.
pub(crate) fn book_length(final_age: u32) -> usize
    ensures { result ≡ book_length final_age }
{
    8 * final_age as usize + 2457
}
