// Polynomials in two unknowns, and their shares.
ghost use Rattle.std.specs.Prelude.{◌≡◌, ℕ, ◌*◌, ◌<◌, ◌≤◌, map, length, replicate, MatchOption, Some, ◌≢◌};
ghost use Rattle.algebra.specs.Polynomial.{Exact2, set_first, set_second};
ghost use Rattle.algebra.specs.Prime.{p};
ghost use Rattle.algebra.specs.Sharing.{point, share_of};
ghost use Rattle.polynomial.specs.Lists.{coeffs, held, rows_of};
ghost use Rattle.polynomial.specs.Numbers.{cut, numbers};
ghost use Rattle.polynomial.specs.Shown.{shown_rows};

use crate::types::{Bivariate, Polynomial, Shape, Share};
use field::Element;
use std::fmt;

impl Shape {
    // The shape with `high` coefficients in x and `low` in y, if both are at most six.
    pub fn new(high: usize, low: usize) -> Option<Shape>
        ensures { MatchOption result ((high ≤ 6) × (low ≤ 6) → ⊥) (λ s. (s.high ≡ high) × (s.low ≡ low)) }
    {
        if high > 6 || low > 6 {
            return None;
        }
        Some(Shape { high, low })
    }

    // The clauses say the bound that the type has: a caller reads a clause, here and below.
    pub fn high(&self) -> usize
        ensures { (result ≡ self.now.high) × (result ≤ 6) }
    {
        self.high
    }

    pub fn low(&self) -> usize
        ensures { (result ≡ self.now.low) × (result ≤ 6) }
    {
        self.low
    }

    // How many coefficients that is.
    pub fn size(&self) -> usize
        ensures { (result ≡ self.now.high * self.now.low) × (result ≤ 36) }
    {
        let Shape { high, low, .. } = *self;
        high * low
    }
}

impl Bivariate {
    // The polynomial with these coefficients: for each power of x those in y, row by row. There must be as many as the shape says.
    pub fn from_slice(shape: Shape, cs: &[Element]) -> Option<Bivariate>
        ensures { MatchOption result (length cs.now ≢ shape.high * shape.low) (λ f. (length cs.now ≡ shape.high * shape.low) × (rows_of f ≡ cut shape.high shape.low (numbers cs.now)) × (f.shape ≡ shape)) }
    {
        if cs.len() != shape.size() {
            return None;
        }
        let mut rows = [Polynomial::zero(); 6];
        // By the number of the row: after a `zip` of `iter_mut` with the chunks nothing is known of the rows; and `chunks_exact` takes no 0, which `low` may be.
        for i in 0..shape.high {
            rows[i] = Polynomial::from_slice(&cs[i * shape.low..(i + 1) * shape.low])?;
        }
        Some(Bivariate { rows, shape })
    }

    // How many coefficients it has, each below p.
    pub fn shape(&self) -> Shape
        ensures { (result ≡ self.now.shape) × (Exact2 p result.high result.low (rows_of self.now)) }
    {
        self.shape
    }

    // F(x, y) as a polynomial in x.
    pub fn across(&self, y: Element) -> Polynomial
        ensures { coeffs result ≡ set_second p (rows_of self.now) y.value }
    {
        let mut coefficients = [Element::zero(); 6];
        // By place, and only the rows that there are: `map` of an array copies all six first.
        for (i, c) in coefficients[..self.shape.high].iter_mut().enumerate() {
            *c = self.rows[i].evaluate(y);
        }
        Polynomial {
            coefficients,
            len: self.shape.high,
        }
    }

    // F(x, y) as a polynomial in y.
    pub fn down(&self, x: Element) -> Polynomial
        ensures { coeffs result ≡ set_first p (rows_of self.now) x.value }
    {
        self.rows[..self.shape.high]
            .iter()
            .rev()
            .fold(Polynomial::zero(), |sum, row| *row + sum * x)
    }

    // What keeper i is dealt.
    pub fn share(&self, i: u8) -> Share
        ensures { held result ≡ share_of p (rows_of self.now) i }
    {
        let at = Element::point(i);
        Share {
            across: self.across(at),
            down: self.down(at),
        }
    }

    // Forgets it: afterwards it has no rows, and every coefficient is 0.
    pub fn clear(&mut self)
        ensures { (map (λ r. numbers r.coefficients) self.new.rows ≡ replicate 6 (replicate 6 0)) × ((self.new.shape.high ≡ 0) × (self.new.shape.low ≡ 0)) }
    {
        *self = Bivariate {
            rows: [Polynomial::zero(); 6],
            shape: Shape { high: 0, low: 0 },
        };
    }
}

// Its rows, with slashes between them. Written out, as for a polynomial: one function for both would have to be told what its parts print.
impl fmt::Display for Bivariate {
    ghost output = { λ f. Some (shown_rows (rows_of f)) };

    fn fmt<W: fmt::Write>(&self, f: &mut fmt::Formatter<W>) -> fmt::Result {
        let Some((first, rest)) = self.rows[..self.shape.high].split_first() else {
            return Ok(());
        };
        write!(f, "{first}")?;
        for row in rest {
            write!(f, " / {row}")?;
        }
        Ok(())
    }
}
