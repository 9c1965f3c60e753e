// The field and its polynomials for callers in C and Rust. Numbers come as plain words; where one of them is not below P the answer is u64::MAX, which is no number of the field: C has no Result, and no type for a word below P, so each clause says which words are in range.
#![tactic(auto)]

ghost use Rattle.std.specs.Prelude.{◌≡◌, ℕ, ◌-◌, ◌*◌, ◌%◌, ◌^◌, ◌<◌, ◌≤◌, [], ◌∷◌, MatchResult};
ghost use Rattle.algebra.specs.Polynomial.{value};
ghost use Rattle.algebra.specs.Prime.{p};
ghost use Rattle.polynomial.specs.Lists.{coeffs};

use field::{Element, OutOfRange};
use polynomial::Polynomial;

// The word of an answer.
fn word(answer: Result<Element, OutOfRange>) -> u64
    ensures { MatchResult answer (λ e. result ≡ e.value) (λ _. result ≡ 2 ^ 64 - 1) }
{
    answer.map_or(u64::MAX, u64::from)
}

// Two numbers, if both are in range.
fn both(a: u64, b: u64) -> Result<(Element, Element), OutOfRange>
    ensures { MatchResult result (λ x. (x.0.value ≡ a) × (x.1.value ≡ b)) (λ _. (a < p) × (b < p) → ⊥) }
{
    Ok((Element::try_from(a)?, Element::try_from(b)?))
}

// The product of two numbers.
#[unsafe(no_mangle)]
pub extern "C" fn vochapir_multiply(a: u64, b: u64) -> u64
    ensures product { a < p → b < p → result ≡ (a * b) % p }
    ensures refused { ((a < p) × (b < p) → ⊥) → result ≡ 2 ^ 64 - 1 }
{
    word(both(a, b).map(|(a, b)| a * b))
}

fn multiply_chain(a: Element, b: Element, n: u32) -> Element
    ensures { result.value ≡ (a.value * b.value ^ n) % p }
{
    let mut product = a;
    for _ in 0..n {
        product = product * b;
    }
    product
}

// `a` times `b`, `n` times over.
#[unsafe(no_mangle)]
pub extern "C" fn vochapir_multiply_chain(a: u64, b: u64, n: u32) -> u64
    ensures product { a < p → b < p → result ≡ (a * b ^ n) % p }
    ensures refused { ((a < p) × (b < p) → ⊥) → result ≡ 2 ^ 64 - 1 }
{
    word(both(a, b).map(|(a, b)| multiply_chain(a, b, n)))
}

// What a number is multiplied by to give 1; 0 for 0, which has no inverse.
#[unsafe(no_mangle)]
pub extern "C" fn vochapir_inverse(a: u64) -> u64
    ensures inverse { 0 < a → a < p → (result < p) × ((a * result) % p ≡ 1) }
    ensures none { a ≡ 0 → result ≡ 0 }
    ensures refused { p ≤ a → result ≡ 2 ^ 64 - 1 }
{
    word(Element::try_from(a).map(|a| a.inverse().unwrap_or(Element::zero())))
}

// The value at `x` of the polynomial with these coefficients, the lowest first.
#[unsafe(no_mangle)]
pub extern "C" fn vochapir_evaluate(
    c0: u64,
    c1: u64,
    c2: u64,
    c3: u64,
    c4: u64,
    c5: u64,
    x: u64,
) -> u64
    ensures evaluated { c0 < p → c1 < p → c2 < p → c3 < p → c4 < p → c5 < p → x < p → result ≡ value p (c0 ∷ c1 ∷ c2 ∷ c3 ∷ c4 ∷ c5 ∷ []) x }
    ensures refused { ((c0 < p) × (c1 < p) × (c2 < p) × (c3 < p) × (c4 < p) × (c5 < p) × (x < p) → ⊥) → result ≡ 2 ^ 64 - 1 }
{
    word(polynomial_of(c0, c1, c2, c3, c4, c5).and_then(|f| value_at(&f, x)))
}

// The value at `x`, if that is in range.
fn value_at(f: &Polynomial, x: u64) -> Result<Element, OutOfRange>
    ensures { MatchResult result (λ y. (y.value ≡ value p (coeffs f.now) x) × (x < p)) (λ _. p ≤ x) }
{
    Ok(f.evaluate(Element::try_from(x)?))
}

// The polynomial with these coefficients, if all are in range.
fn polynomial_of(
    c0: u64,
    c1: u64,
    c2: u64,
    c3: u64,
    c4: u64,
    c5: u64,
) -> Result<Polynomial, OutOfRange>
    ensures { MatchResult result (λ f. (coeffs f ≡ c0 ∷ c1 ∷ c2 ∷ c3 ∷ c4 ∷ c5 ∷ []) × (c0 < p) × (c1 < p) × (c2 < p) × (c3 < p) × (c4 < p) × (c5 < p)) (λ _. (c0 < p) × (c1 < p) × (c2 < p) × (c3 < p) × (c4 < p) × (c5 < p) → ⊥) }
{
    let coefficients = [
        Element::try_from(c0)?,
        Element::try_from(c1)?,
        Element::try_from(c2)?,
        Element::try_from(c3)?,
        Element::try_from(c4)?,
        Element::try_from(c5)?,
    ];
    Polynomial::from_slice(&coefficients).ok_or(OutOfRange)
}
