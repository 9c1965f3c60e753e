// Polynomials in one and two unknowns over the field, and the shares that a dealer makes of one.
#![tactic(auto)]

mod bivariate;
mod polynomial;
mod share;
mod types;

pub use types::{Bivariate, Pair, Polynomial, Shape, Share};
