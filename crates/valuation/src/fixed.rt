// Fixed-point numbers: floors at the scale 2^56.
ghost use Rattle.std.specs.Prelude.{◌≡◌, ◌*◌, ◌<◌, ◌≤◌};
ghost use Rattle.valuation.specs.Fixed.{scale, fixed, product};

// The number that stands for 1.
pub(crate) const SCALE: u64 = 1 << 56;

// n/d, which is at most 255. Where both are at most two million, as all of a valuation's are, two divisions of 64 bits are
// quicker than one of 128: the first leaves a rest, and the second divides it.
pub(crate) fn fixed(n: u64, d: u64) -> u64
    requires some { 0 < d }
    requires fits { n ≤ 255 * d }
    ensures value { result ≡ fixed n d }
    ensures below { n ≤ d → result ≤ scale }
{
    if n <= d && d <= 2_000_000 {
        let shifted = n * 8_796_093_022_208;
        return (shifted / d) * 8192 + (shifted % d) * 8192 / d;
    }
    (n as u128 * SCALE as u128 / d as u128) as u64
}

// The product of a number that is at most 1 and another.
pub(crate) fn product(a: u64, b: u64) -> u64
    requires { a ≤ scale }
    ensures value { result ≡ product a b }
    ensures below { result ≤ b }
{
    (a as u128 * b as u128 / SCALE as u128) as u64
}

// A number of at most 1, as a chance or a discount is.
#[derive(Clone, Copy)]
pub(crate) struct Part {
    pub(crate) number: u64,
    ghost below: { number ≤ scale },
}

impl Part {
    // n/d
    pub(crate) fn new(n: u64, d: u64) -> Part
        requires some { 0 < d }
        requires most { n ≤ d }
        ensures { result.number ≡ fixed n d }
    {
        Part {
            number: fixed(n, d),
        }
    }

    // This part of an amount.
    pub(crate) fn of(self, amount: u64) -> u64
        ensures value { result ≡ product self.number amount }
        ensures below { result ≤ amount }
    {
        product(self.number, amount)
    }

    // This part of a part.
    pub(crate) fn of_part(self, other: Part) -> Part
        ensures { result.number ≡ product self.number other.number }
    {
        Part {
            number: self.of(other.number),
        }
    }
}
