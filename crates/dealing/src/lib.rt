// One keeper's seat in one dealing: which messages it takes, what it says in each round, and what it keeps.
#![tactic(auto)]

mod board;
mod calls;
mod going;
mod hand;
mod numbers;
mod places;
mod seat;
mod types;

pub use going::go_on;
pub use types::{Board, Hand, Refusal, Round, Seat, Terms};
