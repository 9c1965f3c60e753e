// The laws of polynomials modulo a prime. Each function below stands for a law, which is its contract; it computes nothing.
#![tactic(auto)]

ghost use Rattle.algebra.specs.Laws.{Determined, FewRoots, Interpolation, InterpolationOfNumbers, Inverses, Linearity, MovesApart, Shares, Vanishing};
ghost use Rattle.algebra.specs.Prime.{Prime, p};

// 2^61 - 1 is a prime.
pub fn modulus_is_prime()
    ensures { Prime p }
{}

// Two polynomials that agree at as many points as they have coefficients agree everywhere.
pub fn few_roots()
    ensures { FewRoots }
{}

// A polynomial is determined by its values.
pub fn determined()
    ensures { Determined }
{}

// There is a polynomial in two unknowns through given ones in the second.
pub fn interpolation()
    ensures { Interpolation }
{}

// There is a polynomial through given numbers.
pub fn interpolation_of_numbers()
    ensures { InterpolationOfNumbers }
{}

// There is a polynomial that is 1 at 0 and 0 at given points.
pub fn vanishing()
    ensures { Vanishing }
{}

// Sums, multiples and products have the values that they should.
pub fn linearity()
    ensures { Linearity }
{}

// What isn't 0 has an inverse.
pub fn inverses()
    ensures { Inverses }
{}

// A share has the values of the polynomial that it is of.
pub fn shares()
    ensures { Shares }
{}

// No two polynomials come to the same by adding a third.
pub fn moves_apart()
    ensures { MovesApart }
{}
