// The kinds of messages, and their first bytes.
use crate::types::{Body, Malformed};

#[derive(Clone, Copy, Debug, PartialEq, Eq)]
pub enum Kind {
    Share = 1,
    Told,
    Complaint,
    Reveal,
    Fine,
    Finished,
    Value,
}

impl Body {
    ghost use Rattle.std.specs.Prelude.{◌≡◌};
    ghost use Rattle.message.specs.Model.{kind_of};

    pub fn kind(&self) -> Kind
        ensures { result ≡ kind_of self.now }
    {
        match self {
            Body::Share(_) => Kind::Share,
            Body::Told(_) => Kind::Told,
            Body::Complaint { .. } => Kind::Complaint,
            Body::Reveal { .. } => Kind::Reveal,
            Body::Fine { .. } => Kind::Fine,
            Body::Finished { .. } => Kind::Finished,
            Body::Value { .. } => Kind::Value,
        }
    }
}

impl From<Kind> for u8 {
    ghost use Rattle.std.specs.Prelude.{◌≡◌};
    ghost use Rattle.message.specs.Model.{byte_of};

    ghost from_gives = { λ kind byte. byte ≡ byte_of kind };

    fn from(kind: Kind) -> u8 {
        kind as u8
    }
}

impl TryFrom<u8> for Kind {
    type Error = Malformed;

    ghost use Rattle.message.specs.Model.{HasByte};

    // The kind with this byte; what no kind has is refused.
    ghost try_from_gives = { HasByte };

    fn try_from(byte: u8) -> Result<Kind, Malformed> {
        match byte {
            1 => Ok(Kind::Share),
            2 => Ok(Kind::Told),
            3 => Ok(Kind::Complaint),
            4 => Ok(Kind::Reveal),
            5 => Ok(Kind::Fine),
            6 => Ok(Kind::Finished),
            7 => Ok(Kind::Value),
            _ => Err(Malformed),
        }
    }
}
