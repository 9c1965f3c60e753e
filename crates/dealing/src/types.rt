// What a keeper holds of a dealing, and what stands on the board about it.
ghost use Rattle.std.specs.Prelude.{◌≡◌, ◌+◌, ◌*◌, ◌<◌, ◌≤◌, length};

use field::Element;
use polynomial::{Bivariate, Pair, Shape, Share};

// The round that is called.
#[derive(Clone, Copy, Debug, PartialEq, Eq)]
pub enum Round {
    // Before the first.
    Before,
    // The dealer sends each keeper its share.
    Deal,
    // Each tells each other what it has at the other's point.
    Tell,
    // Whoever doesn't fit with another complains on the board.
    Complain,
    // The dealer reveals the shares of those that complained with wrong numbers.
    Reveal,
    // Each says whether all fits.
    Judge,
    // The dealing is accepted or not, and all but the value is forgotten.
    Decided,
}

// Why a message is turned away, by its number.
#[derive(Clone, Copy, Debug, PartialEq, Eq)]
pub enum Refusal {
    // No message: an unknown first byte, a wrong length, a number or a keeper out of range.
    Malformed = 1,
    // Another round or night.
    Untimely,
    // From another than who may send it, or said already.
    Unentitled,
    // A complaint about oneself, or a reveal of a keeper that didn't complain.
    Improper,
}

// What doesn't change: f, the night, who deals, whose seat it is, and how long shares are.
#[derive(Clone, Copy)]
pub struct Terms {
    pub f: u8,
    pub night: u32,
    pub dealer: u8,
    pub me: u8,
    pub shape: Shape,
    ghost few: { f ≤ 5 },
    ghost deals: { dealer < 3 * f + 1 },
    ghost sits: { me < 3 * f + 1 },
    ghost high: { shape.high ≤ f + 1 },
    ghost low: { shape.low ≤ f + 1 },
}

// What a keeper was sent and told. Sixteen places, and no Vec: no round and no message can run out of memory.
#[derive(Clone, Copy)]
pub struct Hand {
    pub share: Option<Share>,
    pub told: [Option<Pair>; 16],
}

// What stands on the board: complaints by and about each keeper, the shares that were revealed, and who said whether all fits. Sixteen places each, as in a hand; three tables, as the rules have them.
#[derive(Clone, Copy)]
pub struct Board {
    pub complaints: [[Option<Pair>; 16]; 16],
    pub reveals: [Option<Share>; 16],
    pub fines: [Option<bool>; 16],
    ghost places: { length reveals ≡ 16 },
}

// One keeper's seat in one dealing.
#[derive(Clone, Copy)]
pub struct Seat {
    pub terms: Terms,
    pub round: Round,
    // The polynomial that the dealer drew.
    pub chance: Option<Bivariate>,
    pub hand: Hand,
    pub board: Board,
    // What is kept in the end.
    pub kept: Option<Element>,
}
