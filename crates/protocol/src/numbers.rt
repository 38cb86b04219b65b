// Numbers among the words.
ghost use Rattle.std.specs.Prelude.{◌≡◌};
ghost use Rattle.protocol.specs.Numbers.{number_of};

// One more than the greatest number of 32 bits.
const LIMIT: u64 = 1 << 32;

// A whole number of 32 bits in plain decimal digits. The library's parse takes a leading plus too, which is none.
pub fn number(word: &[u8]) -> Option<u32>
    ensures { result ≡ number_of word.now }
{
    if word.is_empty() {
        return None;
    }
    let mut n = 0u64;
    for byte in word {
        if !byte.is_ascii_digit() {
            return None;
        }
        n = (n * 10 + (*byte - b'0') as u64).min(LIMIT);
    }
    if n == LIMIT {
        return None;
    }
    Some(n as u32)
}
