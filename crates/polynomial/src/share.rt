// Shares, and when they fit together.
ghost use Rattle.std.specs.Prelude.{◌≡◌, ℕ, ◌≤◌, length, replicate, Some, Decides};
ghost use Rattle.algebra.specs.Polynomial.{value};
ghost use Rattle.algebra.specs.Prime.{p};
ghost use Rattle.algebra.specs.Sharing.{Agree, pair_at, swap};
ghost use Rattle.polynomial.specs.Lists.{coeffs, held, said};
ghost use Rattle.polynomial.specs.Numbers.{numbers};
ghost use Rattle.polynomial.specs.Shown.{shown_pair, shown_share};

use crate::types::{Pair, Polynomial, Shape, Share};
use field::Element;
use std::fmt;

impl Pair {
    // As the other one sees it.
    pub fn swap(self) -> Pair
        ensures { said result ≡ swap (said self) }
    {
        Pair {
            across: self.down,
            down: self.across,
        }
    }
}

impl fmt::Display for Pair {
    ghost output = { λ a. Some (shown_pair (said a)) };

    fn fmt<W: fmt::Write>(&self, f: &mut fmt::Formatter<W>) -> fmt::Result {
        let Pair { across, down } = *self;
        write!(f, "across {across}, down {down}")
    }
}

impl fmt::Display for Share {
    ghost output = { λ x. Some (shown_share (held x)) };

    fn fmt<W: fmt::Write>(&self, f: &mut fmt::Formatter<W>) -> fmt::Result {
        write!(f, "across {}, down {}", self.across, self.down)
    }
}

impl Share {
    // Zeros.
    pub fn zeros(shape: Shape) -> Share
        ensures { (coeffs result.across ≡ replicate shape.high 0) × (coeffs result.down ≡ replicate shape.low 0) }
    {
        Share {
            across: Polynomial::zeros(shape.high),
            down: Polynomial::zeros(shape.low),
        }
    }

    // Are the lengths those of the shape?
    pub fn has(&self, shape: Shape) -> bool
        ensures { Decides result ((length (coeffs self.now.across) ≡ shape.high) × (length (coeffs self.now.down) ≡ shape.low)) }
    {
        self.across.len() == shape.high && self.down.len() == shape.low
    }

    // What it gives at keeper j's point.
    pub fn pair_at(&self, j: u8) -> Pair
        ensures { said result ≡ pair_at p (held self.now) j }
    {
        let at = Element::point(j);
        Pair {
            across: u64::from(self.across.evaluate(at)),
            down: u64::from(self.down.evaluate(at)),
        }
    }

    // Do the shares of keepers i and j agree: is each one's across at the other's point the other's down at its own?
    pub fn agrees(&self, i: u8, other: &Share, j: u8) -> bool
        ensures { Decides result (Agree p i (held self.now) j (held other.now)) }
    {
        self.pair_at(j) == other.pair_at(i).swap()
    }

    // Does keeper i's share agree with itself: is its across at its own point its down there?
    pub fn agrees_with_itself(&self, i: u8) -> bool
        ensures { Decides result (Agree p i (held self.now) i (held self.now)) }
    {
        self.agrees(i, self, i)
    }

    // The keeper's value: across at 0.
    pub fn value(&self) -> Element
        ensures { result.value ≡ value p (coeffs self.now.across) 0 }
    {
        self.across.constant()
    }

    // Forgets it: afterwards every coefficient is 0.
    pub fn clear(&mut self)
        ensures across { (numbers self.new.across.coefficients ≡ replicate 6 0) × (self.new.across.len ≡ 0) }
        ensures down { (numbers self.new.down.coefficients ≡ replicate 6 0) × (self.new.down.len ≡ 0) }
    {
        self.across.clear();
        self.down.clear();
    }
}
