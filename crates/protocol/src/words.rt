// The words of a line, and the numbers among them.
ghost use Rattle.std.specs.Prelude.{◌≡◌, not, [], ◌∷◌, MatchOption, position};
ghost use Rattle.protocol.specs.Words.{blank, words};

fn is_blank(byte: u8) -> bool
    ensures { result ≡ blank byte }
{
    byte == b' ' || byte == b'\t'
}

// Where the first word begins, if there is one.
fn begin(line: &[u8]) -> Option<usize>
    ensures { result ≡ position (λ b. not (blank b)) line.now }
{
    line.iter().position(|byte| !is_blank(*byte))
}

// Where it ends, if a blank follows it.
fn end(line: &[u8]) -> Option<usize>
    ensures { result ≡ position blank line.now }
{
    line.iter().position(|byte| is_blank(*byte))
}

// The first word and what follows it.
pub fn next_word(line: &[u8]) -> Option<(&[u8], &[u8])>
    ensures { MatchOption result (words line.now ≡ []) (λ p. words line.now ≡ p.0.now ∷ words p.1.now) }
{
    let from = begin(line)?;
    let rest = &line[from..];
    let to = end(rest).unwrap_or(rest.len());
    Some(rest.split_at(to))
}
