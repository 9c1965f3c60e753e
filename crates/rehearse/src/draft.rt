// Messages as a script writes them: numbers may be out of range, and rows of any length up to twelve.
ghost use Rattle.std.specs.Prelude.{◌≡◌, ◌+◌, ◌*◌, ◌≤◌, length, IfOk, OnOk};

use crate::expected::Expected;
use crate::failure::Failure;
use crate::words;
use crate::words::Words;
use message::Kind;
use std::alloc::{AllocError, Global};
use std::str::FromStr;

#[derive(Drop)]
pub enum Draft {
    // If no dealer is given, it is that of the dealing.
    Message {
        kind: Kind,
        night: u32,
        dealer: Option<u8>,
        body: Vec<u8>,
    },
    Bytes(Vec<u8>),
}

impl Draft {
    // `[night N] [dealer D] KIND ..`, or `hex DIGITS`
    pub fn read(heap: Global, mut words: Words<'_>) -> Result<Draft, Failure> {
        if words.pass("hex") {
            return Ok(Draft::Bytes(hex(heap, words)?));
        }
        let night = number_after(&mut words, "night")?.unwrap_or(0);
        let dealer = number_after(&mut words, "dealer")?;
        let kind = words.next().and_then(kind_of).ok_or(Expected::Message)?;
        let body = Body::read(heap, kind, words)?;
        Ok(Draft::Message {
            kind,
            night,
            dealer,
            body,
        })
    }

    // The bytes to hand over, in a dealing of this dealer.
    pub fn bytes(self, heap: Global, dealt_by: u8) -> Result<Vec<u8>, AllocError> {
        match self {
            Draft::Bytes(bytes) => Ok(bytes),
            Draft::Message {
                kind,
                night,
                dealer,
                body,
            } => {
                let mut out = Vec::new(heap);
                out.push(u8::from(kind))?;
                out.extend_from_slice(&night.to_be_bytes())?;
                out.push(dealer.unwrap_or(dealt_by))?;
                out.extend_from_slice(body.as_slice())?;
                Ok(out)
            }
        }
    }
}

// The number behind this word, if the word comes next.
fn number_after<T: FromStr>(words: &mut Words<'_>, word: &str) -> Result<Option<T>, Expected>
where
    T::Err: Drop,
{
    words.pass(word).then(|| words.number()).transpose()
}

// The kind of message that a word names.
fn kind_of(word: &str) -> Option<Kind> {
    match word {
        "share" => Some(Kind::Share),
        "told" => Some(Kind::Told),
        "complaint" => Some(Kind::Complaint),
        "reveal" => Some(Kind::Reveal),
        "fine" => Some(Kind::Fine),
        "finished" => Some(Kind::Finished),
        "value" => Some(Kind::Value),
        _ => None,
    }
}

// What ends the numbers of a side.
#[derive(Clone, Copy, PartialEq, Eq)]
enum End {
    Slash,
    Line,
}

// What follows the night and the dealer: the words that are left to read, and the bytes that the others write.
#[derive(Drop)]
struct Body<'a> {
    words: Words<'a>,
    bytes: Vec<u8>,
}

impl<'a> Body<'a> {
    // The bytes that all words write, of this kind of message.
    fn read(heap: Global, kind: Kind, words: Words<'a>) -> Result<Vec<u8>, Failure> {
        let mut body = Body {
            words,
            bytes: Vec::new(heap),
        };
        body.write(kind)?;
        body.words.end()?;
        Ok(body.bytes)
    }

    fn write(&mut self, kind: Kind) -> Result<(), Failure> {
        match kind {
            Kind::Share => self.sides(),
            Kind::Told => self.pair(),
            Kind::Complaint => {
                self.byte()?;
                self.byte()?;
                self.pair()
            }
            Kind::Reveal => {
                self.byte()?;
                self.sides()
            }
            Kind::Fine => {
                self.byte()?;
                self.answer()
            }
            Kind::Finished => self.byte(),
            Kind::Value => {
                self.byte()?;
                self.number()
            }
        }
    }

    // A number below 256.
    fn byte(&mut self) -> Result<(), Failure> {
        Ok(self.bytes.push(self.words.number()?)?)
    }

    // A number below 2^64.
    fn number(&mut self) -> Result<(), Failure> {
        let number = self.words.number()?;
        Ok(self.put(number)?)
    }

    // Eight bytes.
    fn put(&mut self, number: u64) -> Result<(), AllocError>
        ensures { OnOk result (length self.new.bytes.items ≡ length self.old.bytes.items + 8) }
    {
        self.bytes.extend_from_slice(&number.to_be_bytes())
    }

    // `A D`
    fn pair(&mut self) -> Result<(), Failure> {
        self.number()?;
        self.number()
    }

    // `A .. / D ..`
    fn sides(&mut self) -> Result<(), Failure> {
        if self.side()? != End::Slash || self.side()? != End::Line {
            return Err(Expected::Slash.into());
        }
        Ok(())
    }

    // At most twelve numbers, and what ends them.
    fn side(&mut self) -> Result<End, Failure>
        ensures { IfOk result (λ _. length self.new.bytes.items ≤ length self.old.bytes.items + 8 * 12) }
    {
        for _ in 0..=12u8 {
            match self.words.next() {
                Some("/") => return Ok(End::Slash),
                Some(word) => self.put(words::number(word)?)?,
                None => return Ok(End::Line),
            }
        }
        Err(Expected::FewNumbers.into())
    }

    // `yes` or `no`
    fn answer(&mut self) -> Result<(), Failure> {
        let answer = match self.words.next() {
            Some("yes") => true,
            Some("no") => false,
            _ => return Err(Expected::YesOrNo.into()),
        };
        Ok(self.bytes.push(answer.into())?)
    }
}

// `hex DIGITS`. Digit by digit: what `hex::decode` says of a lack of memory is no AllocError.
fn hex(heap: Global, mut words: Words<'_>) -> Result<Vec<u8>, Failure> {
    let digits = words.next().ok_or(Expected::Hex)?;
    let mut out = Vec::new(heap);
    for pair in digits.as_bytes().chunks(2) {
        out.push(byte(pair).ok_or(Expected::Hex)?)?;
    }
    words.end()?;
    Ok(out)
}

// The byte that two digits write.
fn byte(pair: &[u8]) -> Option<u8> {
    let [high, low] = pair else {
        return None;
    };
    let high = char::from(*high).to_digit(16)?;
    let low = char::from(*low).to_digit(16)?;
    u8::try_from(high << 4 | low).ok()
}
