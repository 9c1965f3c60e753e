// Messages and their bytes.
#![tactic(auto)]

mod kind;
mod reading;
mod types;
mod writing;

pub use kind::Kind;
pub use reading::read;
pub use types::{Body, Head, Malformed, Message};
pub use writing::write;
