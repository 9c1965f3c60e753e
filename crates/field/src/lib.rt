// Numbers modulo the prime 2^61 - 1.
#![tactic(auto)]

mod element;

pub use element::{Element, OutOfRange, P};
