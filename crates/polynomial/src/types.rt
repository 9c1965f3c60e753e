// What polynomials and shares are made of.
ghost use Rattle.std.specs.Prelude.{◌≡◌, ℕ, ◌<◌, ◌≤◌, map, length, slice_index};
ghost use Rattle.polynomial.specs.Numbers.{Clean};

use field::Element;

// A polynomial with at most six coefficients, the lowest first, and zeros after them.
// An array with a length, and not a Vec: no function here can run out of memory, and a polynomial is copied, and forgotten, whole.
#[derive(Clone, Copy, Debug, PartialEq, Eq)]
pub struct Polynomial {
    pub(crate) coefficients: [Element; 6],
    pub(crate) len: usize,
    ghost six: { length coefficients ≡ 6 },
    ghost short: { len ≤ 6 },
    ghost clean: { Clean len coefficients },
}

// How many coefficients a polynomial F(x, y) has in x, and how many in y: at most six each.
#[derive(Clone, Copy, Debug, PartialEq, Eq)]
pub struct Shape {
    pub(crate) high: usize,
    pub(crate) low: usize,
    ghost high_short: { high ≤ 6 },
    ghost low_short: { low ≤ 6 },
}

// A polynomial F(x, y): for each power of x a row of coefficients in y, and empty rows after them. An array, as in a polynomial.
#[derive(Clone, Copy, Debug, PartialEq, Eq)]
pub struct Bivariate {
    pub(crate) rows: [Polynomial; 6],
    pub(crate) shape: Shape,
    ghost six: { length rows ≡ 6 },
    ghost even: { (k : ℕ) → k < shape.high → slice_index (map (λ r. r.len) rows) k ≡ shape.low },
    ghost clean: { (k : ℕ) → shape.high ≤ k → slice_index (map (λ r. r.len) rows) k ≡ 0 },
}

// A keeper's share of F(x, y): across, F(x, i + 1), and down, F(i + 1, y), for keeper i at the point i + 1.
#[derive(Clone, Copy, Debug, PartialEq, Eq)]
pub struct Share {
    pub across: Polynomial,
    pub down: Polynomial,
}

// What a share gives at one point.
#[derive(Clone, Copy, Debug, PartialEq, Eq)]
pub struct Pair {
    pub across: u64,
    pub down: u64,
}
