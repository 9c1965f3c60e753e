// The numbers of rounds and of refusals.
ghost use Rattle.dealing.specs.Model.{number_of, round_of};
ghost use Rattle.dealing.specs.declared.types.Refusal.TheVariants as refusal;
ghost use Rattle.std.specs.Prelude.{◌≡◌};

use crate::types::{Refusal, Round};
use message::Malformed;

impl From<Round> for u8 {
    ghost from_gives = { λ round n. n ≡ round_of round };

    fn from(round: Round) -> u8 {
        round as u8
    }
}

impl From<Refusal> for u8 {
    ghost from_gives = { λ why n. n ≡ number_of why };

    fn from(why: Refusal) -> u8 {
        why as u8
    }
}

// Bytes that are no message.
impl From<Malformed> for Refusal {
    ghost from_gives = { λ _ why. why ≡ refusal.Malformed };

    fn from(_: Malformed) -> Refusal {
        Refusal::Malformed
    }
}
