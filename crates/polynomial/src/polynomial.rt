// Polynomials in one unknown.
ghost use Rattle.std.specs.Prelude.{◌≡◌, ℕ, ◌+◌, ◌*◌, ◌%◌, ◌<◌, ◌≤◌, [], length, replicate, MatchOption, Some};
ghost use Rattle.algebra.specs.Polynomial.{plus, times, value};
ghost use Rattle.algebra.specs.Prime.{p};
ghost use Rattle.polynomial.specs.Lists.{coeffs};
ghost use Rattle.polynomial.specs.Numbers.{numbers};
ghost use Rattle.polynomial.specs.Shown.{shown};

use crate::types::Polynomial;
use field::Element;
use std::ops::{Add, Mul};
use std::{array, fmt};

// The value at x by Horner's rule.
fn horner(cs: &[Element], x: Element) -> Element
    ensures { result.value ≡ value p (numbers cs.now) x.value }
{
    let Some((top, rest)) = cs.split_last() else {
        return Element::zero();
    };
    rest.iter().rev().fold(*top, |sum, c| x.times_plus(sum, *c))
}

impl Polynomial {
    // No coefficients: 0 everywhere.
    pub fn zero() -> Polynomial
        ensures { (coeffs result ≡ []) × ((numbers result.coefficients ≡ replicate 6 0) × (result.len ≡ 0)) }
    {
        Polynomial::zeros(0)
    }

    // As many zeros. That they are at most six is asked and said again, here and below: a caller reads a clause.
    pub(crate) fn zeros(len: usize) -> Polynomial
        requires { len ≤ 6 }
        ensures { (coeffs result ≡ replicate len 0) × ((numbers result.coefficients ≡ replicate 6 0) × (result.len ≡ len)) }
    {
        Polynomial {
            coefficients: [Element::zero(); 6],
            len,
        }
    }

    // The polynomial with these coefficients, if they are at most six.
    pub fn from_slice(cs: &[Element]) -> Option<Polynomial>
        ensures { MatchOption result (6 < length cs.now) (λ f. coeffs f ≡ numbers cs.now) }
    {
        if cs.len() > 6 {
            return None;
        }
        let mut coefficients = [Element::zero(); 6];
        coefficients[..cs.len()].copy_from_slice(cs);
        Some(Polynomial {
            coefficients,
            len: cs.len(),
        })
    }

    // How many coefficients it has.
    pub fn len(&self) -> usize
        ensures { (result ≡ length (coeffs self.now)) × (result ≤ 6) }
    {
        self.as_slice().len()
    }

    // Its coefficients, the lowest first.
    pub fn as_slice(&self) -> &[Element]
        ensures { (numbers result.now ≡ coeffs self.now) × (length result.now ≤ 6) }
    {
        &self.coefficients[..self.len]
    }

    pub fn evaluate(&self, x: Element) -> Element
        ensures { result.value ≡ value p (coeffs self.now) x.value }
    {
        horner(self.as_slice(), x)
    }

    // The value at 0.
    pub fn constant(&self) -> Element
        ensures { result.value ≡ value p (coeffs self.now) 0 }
    {
        self.evaluate(Element::zero())
    }

    // Forgets it: afterwards every one of the six coefficients is 0.
    pub fn clear(&mut self)
        ensures { (numbers self.new.coefficients ≡ replicate 6 0) × (self.new.len ≡ 0) }
    {
        *self = Polynomial::zero();
    }
}

impl Add for Polynomial {
    type Output = Polynomial;

    ghost add_gives = { λ f g r. coeffs r ≡ plus p (coeffs f) (coeffs g) };

    fn add(self, other: Polynomial) -> Polynomial {
        let (cs, ds) = (self.coefficients, other.coefficients);
        let sum = |i|
            requires { i < 6 }
        { cs[i] + ds[i] };
        Polynomial {
            coefficients: array::from_fn(sum),
            len: self.len.max(other.len),
        }
    }
}

impl Mul<Element> for Polynomial {
    type Output = Polynomial;

    ghost mul_gives = { λ f factor r. coeffs r ≡ times p factor.value (coeffs f) };

    fn mul(self, factor: Element) -> Polynomial {
        Polynomial {
            coefficients: self.coefficients.map(|c| factor * c),
            len: self.len,
        }
    }
}

// Its coefficients, the lowest first, with blanks between them; `-` if it has none.
impl fmt::Display for Polynomial {
    ghost output = { λ f. Some (shown (coeffs f)) };

    fn fmt<W: fmt::Write>(&self, f: &mut fmt::Formatter<W>) -> fmt::Result {
        let Some((first, rest)) = self.as_slice().split_first() else {
            return f.write_str("-");
        };
        write!(f, "{first}")?;
        for c in rest {
            write!(f, " {c}")?;
        }
        Ok(())
    }
}
