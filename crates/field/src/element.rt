// A number modulo P, as a word below P. All arithmetic on words is here, and nothing is divided by P: what is too large goes through `reduce`.
ghost use Rattle.std.specs.Prelude.{◌≡◌, ℕ, ◌+◌, ◌-◌, ◌*◌, ◌%◌, ◌^◌, ◌<◌, ◌≤◌, MatchOption, MatchResult, Some, codes};
ghost use Rattle.std.specs.Fmt.{decimal};
ghost use Rattle.algebra.specs.Prime.{p};

use std::error::Error;
use std::fmt;
use std::ops::{Add, Mul, Neg, Sub};

// 2^61 - 1, a prime.
pub const P: u64 = 2_305_843_009_213_693_951;

#[derive(Clone, Copy, PartialEq, Eq, Debug)]
pub struct Element {
    value: u64,
    ghost reduced: { value < p },
}

// A word that isn't below P.
#[derive(Clone, Copy, PartialEq, Eq, Debug)]
pub struct OutOfRange;

impl Element {
    pub fn zero() -> Element
        ensures { result.value ≡ 0 }
    {
        Element { value: 0 }
    }

    // Where keeper i stands.
    pub fn point(i: u8) -> Element
        ensures { result.value ≡ i + 1 }
    {
        Element {
            value: u64::from(i) + 1,
        }
    }

    // The remainder of a word: 2^61 is 1 modulo P, so the low 61 bits and the rest are added, and P is taken off once more where that is needed.
    fn reduce(n: u64) -> Element
        ensures { result.value ≡ n % p }
    {
        Element::once((n & P) + (n >> 61))
    }

    // The remainder of a word below 2 P.
    fn once(n: u64) -> Element
        requires { n < 2 * p }
        ensures { result.value ≡ n % p }
    {
        Element {
            value: if n < P { n } else { n - P },
        }
    }

    // This number times another and one more: a step of Horner's rule. The product is taken by halves of 32 bits: 2^64 is 8 modulo P, and 2^61 is 1.
    pub fn times_plus(self, factor: Element, more: Element) -> Element
        ensures { result.value ≡ (more.value + self.value * factor.value) % p }
    {
        let (a, b, c) = (self.value, factor.value, more.value);
        let (a_high, a_low) = (a >> 32, a & 0xffff_ffff);
        let (b_high, b_low) = (b >> 32, b & 0xffff_ffff);
        let middle = a_high * b_low + a_low * b_high;
        let low = a_low * b_low;
        Element::reduce(
            ((a_high * b_high) << 3)
                + (middle >> 29)
                + ((middle & 0x1fff_ffff) << 32)
                + (low & P)
                + (low >> 61)
                + c,
        )
    }

    // By squares.
    pub fn power(self, exponent: u64) -> Element
        ensures { result.value ≡ (self.value ^ exponent) % p }
    {
        let mut result = Element::from(1u32);
        let mut base = self;
        let mut left = exponent;
        while left > 0 {
            if left % 2 == 1 {
                result = result * base;
            }
            base = base * base;
            left /= 2;
        }
        result
    }

    // The inverse; 0 has none. Euclid's algorithm: up to its sign, which turns with each step, `by` is the factor that takes this number to `left`, and `before` the one that takes it to `over`.
    pub fn inverse(self) -> Option<Element>
        ensures { MatchOption result (self.value ≡ 0) (λ b. (self.value * b.value) % p ≡ 1) }
    {
        if self.value == 0 {
            return None;
        }
        let (mut over, mut left) = (P, self.value);
        let (mut before, mut by) = (0, 1);
        // The sign of a factor that is found: a flag, since words have none.
        let mut negated = false;
        while left != 1 {
            let next = before + over / left * by;
            let rest = over % left;
            before = by;
            by = next;
            over = left;
            left = rest;
            negated = !negated;
        }
        let by = Element { value: by };
        Some(if negated { -by } else { by })
    }
}

// A word, if it is in range.
impl TryFrom<u64> for Element {
    type Error = OutOfRange;

    ghost try_from_gives = { λ value r. MatchResult r (λ e. (value < p) × (e.value ≡ value)) (λ _. p ≤ value) };

    fn try_from(value: u64) -> Result<Element, OutOfRange> {
        if value < P {
            Ok(Element { value })
        } else {
            Err(OutOfRange)
        }
    }
}

// A small number.
impl From<u32> for Element {
    ghost from_gives = { λ value e. e.value ≡ value };

    fn from(value: u32) -> Element {
        Element {
            value: u64::from(value),
        }
    }
}

impl From<Element> for u64 {
    ghost from_gives = { λ e value. (value ≡ e.value) × (value < p) };

    fn from(element: Element) -> u64 {
        element.value
    }
}

impl fmt::Display for Element {
    ghost output = { λ e. Some (decimal e.value) };

    fn fmt<W: fmt::Write>(&self, f: &mut fmt::Formatter<W>) -> fmt::Result {
        write!(f, "{}", self.value)
    }
}

impl fmt::Display for OutOfRange {
    ghost output = { λ _. Some (codes "a number past the field") };

    fn fmt<W: fmt::Write>(&self, f: &mut fmt::Formatter<W>) -> fmt::Result {
        f.write_str("a number past the field")
    }
}

impl Error for OutOfRange {}

impl Add<Element> for Element {
    type Output = Element;

    ghost add_gives = { λ a b r. r.value ≡ (a.value + b.value) % p };

    fn add(self, other: Element) -> Element {
        Element::once(self.value + other.value)
    }
}

impl Sub<Element> for Element {
    type Output = Element;

    ghost sub_gives = { λ a b r. r.value ≡ (a.value + (p - b.value)) % p };

    fn sub(self, other: Element) -> Element {
        self + -other
    }
}

impl Neg for Element {
    type Output = Element;

    ghost neg_gives = { λ a r. r.value ≡ (p - a.value) % p };

    fn neg(self) -> Element {
        Element::once(P - self.value)
    }
}

impl Mul<Element> for Element {
    type Output = Element;

    ghost mul_gives = { λ a b r. r.value ≡ (a.value * b.value) % p };

    fn mul(self, other: Element) -> Element {
        self.times_plus(other, Element::zero())
    }
}
