// The known figures, as a theorem.
ghost use Rattle.std.specs.Prelude.{◌≡◌, length};
ghost use Rattle.valuation.specs.Known.{Known, rows};

// How many promises with a known present value the definitions are held to: each of them has it exactly.
pub fn known_figures() -> usize
    ensures counted { result ≡ length rows }
    ensures known { Known }
{
    34
}
