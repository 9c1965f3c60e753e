// The messages, a variant of the body for each first byte.
use field::{Element, OutOfRange};
use polynomial::{Pair, Share};
use std::error::Error;
use std::fmt;

// What every message names.
#[derive(Clone, Copy, Debug, PartialEq, Eq)]
pub struct Head {
    pub night: u32,
    pub dealer: u8,
}

#[derive(Clone, Copy, Debug, PartialEq, Eq)]
pub struct Message {
    pub head: Head,
    pub body: Body,
}

#[derive(Clone, Copy, Debug, PartialEq, Eq)]
pub enum Body {
    // To one keeper: its share.
    Share(Share),
    // To one keeper: what the sender's share gives at its point.
    Told(Pair),
    // On the board: `by` doesn't fit with `about`; what the share of `by` gives at the point of `about`.
    Complaint { by: u8, about: u8, pair: Pair },
    // On the board: the share of a keeper that complained.
    Reveal { keeper: u8, share: Share },
    // On the board: whether all fits for a keeper.
    Fine { keeper: u8, fine: bool },
    // On the board: a keeper is done with the night's dealings.
    Finished { keeper: u8 },
    // To whoever opens the secret: a keeper's value.
    Value { keeper: u8, value: Element },
}

// Why bytes are no message.
#[derive(Clone, Copy, Debug, PartialEq, Eq)]
pub struct Malformed;

impl fmt::Display for Malformed {
    ghost use Rattle.std.specs.Prelude.{Some, codes};

    ghost output = { λ _. Some (codes "malformed message") };

    fn fmt<W: fmt::Write>(&self, f: &mut fmt::Formatter<W>) -> fmt::Result {
        f.write_str("malformed message")
    }
}

impl Error for Malformed {}

impl From<OutOfRange> for Malformed {
    fn from(_: OutOfRange) -> Malformed {
        Malformed
    }
}
