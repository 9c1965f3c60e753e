// From bytes to a message.
ghost use Rattle.std.specs.Prelude.{◌≡◌, ◌+◌, ◌*◌, ◌<◌, ◌≤◌, length, Some, None, MatchResult, ◌≢◌, slice_index, slice_range, nat_lt};
ghost use Rattle.algebra.specs.Prime.{p};
ghost use Rattle.message.specs.Model.{Gives, Reads, message_of};
ghost use Rattle.polynomial.specs.Lists.{coeffs, held, said};
ghost use Rattle.rules.specs.Message as rules;
ghost use Rattle.rules.specs.Wire.{InRange, by_kind, number8, pair_from, parse, read_complaint, read_fine, read_finished, read_reveal, read_share, read_told, read_value, row_at, share_at, small, small_pair, small_share, wire};

use crate::kind::Kind;
use crate::types::{Body, Head, Malformed, Message};
use field::{Element, P};
use polynomial::{Pair, Polynomial, Shape, Share};

// So many bytes at a place.
fn array_at<const N: usize>(bytes: &[u8], place: usize) -> [u8; N]
    requires { place + N ≤ length bytes.now }
    ensures { result ≡ slice_range bytes.now place (place + N) }
{
    *bytes[place..].first_chunk().unwrap()
}

// The bytes of a message with their head, and whom they are read for: so many keepers, with shares of this shape.
#[derive(Clone, Copy)]
struct Frame<'a> {
    bytes: &'a [u8],
    keepers: u8,
    shape: Shape,
    head: Head,
}

// A place is asked to lie within the bytes, and not tested: their number is, once, before any is read.
impl Frame<'_> {
    // The bytes are so many.
    fn check_len(&self, len: usize) -> Result<(), Malformed>
        ensures { MatchResult result (λ _. length self.now.bytes.now ≡ len) (λ _. length self.now.bytes.now ≢ len) }
    {
        if self.bytes.len() != len {
            return Err(Malformed);
        }
        Ok(())
    }

    // The keeper at a place.
    fn keeper_at(&self, place: usize) -> Result<u8, Malformed>
        requires { place < length self.now.bytes.now }
        ensures { Gives (λ keeper. keeper) result (nat_lt (slice_index self.now.bytes.now place) self.now.keepers) (slice_index self.now.bytes.now place) }
    {
        let keeper = self.bytes[place];
        if keeper >= self.keepers {
            return Err(Malformed);
        }
        Ok(keeper)
    }

    // The number of eight bytes at a place.
    fn number_at(&self, place: usize) -> u64
        requires { place + 8 ≤ length self.now.bytes.now }
        ensures { result ≡ number8 self.now.bytes.now place }
    {
        u64::from_be_bytes(array_at(self.bytes, place))
    }

    // That number, if it is below P.
    fn element_at(&self, place: usize) -> Result<Element, Malformed>
        requires { place + 8 ≤ length self.now.bytes.now }
        ensures { Gives (λ e. e.value) result (nat_lt (number8 self.now.bytes.now place) p) (number8 self.now.bytes.now place) }
    {
        Ok(Element::try_from(self.number_at(place))?)
    }

    // A row of so many numbers, if each is below P.
    fn row_at(&self, place: usize, count: usize) -> Result<Polynomial, Malformed>
        requires { (place + 8 * count ≤ length self.now.bytes.now) × (count ≤ 6) }
        ensures { Gives coeffs result (small (row_at self.now.bytes.now place count)) (row_at self.now.bytes.now place count) }
    {
        // Part of an array of six, and no Vec: reading can't run out of memory. By place: after a `zip` of `iter_mut` nothing is known of what was written.
        let mut numbers = [Element::zero(); 6];
        let row = &mut numbers[..count];
        for (k, number) in row.iter_mut().enumerate() {
            *number = self.element_at(place + 8 * k)?;
        }
        Polynomial::from_slice(row).ok_or(Malformed)
    }

    // A share, across and then down, if its numbers are below P.
    fn share_at(&self, place: usize) -> Result<Share, Malformed>
        requires { place + 8 * (self.now.shape.high + self.now.shape.low) ≤ length self.now.bytes.now }
        ensures { Gives held result (small_share (share_at self.now.shape.high self.now.shape.low self.now.bytes.now place)) (share_at self.now.shape.high self.now.shape.low self.now.bytes.now place) }
    {
        let high = self.shape.high();
        let across = self.row_at(place, high)?;
        let down = self.row_at(place + 8 * high, self.shape.low())?;
        Ok(Share { across, down })
    }

    // A pair, if its numbers are below P.
    fn pair_at(&self, place: usize) -> Result<Pair, Malformed>
        requires { place + 16 ≤ length self.now.bytes.now }
        ensures { Gives said result (small_pair (pair_from self.now.bytes.now place)) (pair_from self.now.bytes.now place) }
    {
        let across = self.number_at(place);
        let down = self.number_at(place + 8);
        if across >= P || down >= P {
            return Err(Malformed);
        }
        Ok(Pair { across, down })
    }

    // How long a share is.
    fn share_len(&self) -> usize
        ensures { (result ≡ 8 * (self.now.shape.high + self.now.shape.low)) × (result ≤ 96) }
    {
        8 * (self.shape.high() + self.shape.low())
    }

    // Each kind of body.
    fn share(&self) -> Result<Body, Malformed>
        ensures { Reads self.now.head result (read_share self.now.shape.high self.now.shape.low self.now.bytes.now self.now.head.night self.now.head.dealer) }
    {
        self.check_len(6 + self.share_len())?;
        let share = self.share_at(6)?;
        Ok(Body::Share(share))
    }

    fn told(&self) -> Result<Body, Malformed>
        ensures { Reads self.now.head result (read_told self.now.bytes.now self.now.head.night self.now.head.dealer) }
    {
        self.check_len(22)?;
        let pair = self.pair_at(6)?;
        Ok(Body::Told(pair))
    }

    fn complaint(&self) -> Result<Body, Malformed>
        ensures { Reads self.now.head result (read_complaint self.now.keepers self.now.bytes.now self.now.head.night self.now.head.dealer) }
    {
        self.check_len(24)?;
        let by = self.keeper_at(6)?;
        let about = self.keeper_at(7)?;
        let pair = self.pair_at(8)?;
        Ok(Body::Complaint { by, about, pair })
    }

    fn reveal(&self) -> Result<Body, Malformed>
        ensures { Reads self.now.head result (read_reveal self.now.keepers self.now.shape.high self.now.shape.low self.now.bytes.now self.now.head.night self.now.head.dealer) }
    {
        self.check_len(7 + self.share_len())?;
        let keeper = self.keeper_at(6)?;
        let share = self.share_at(7)?;
        Ok(Body::Reveal { keeper, share })
    }

    fn fine(&self) -> Result<Body, Malformed>
        ensures { Reads self.now.head result (read_fine self.now.keepers self.now.bytes.now self.now.head.night self.now.head.dealer) }
    {
        self.check_len(8)?;
        let keeper = self.keeper_at(6)?;
        let fine = match self.bytes[7] {
            0 => false,
            1 => true,
            _ => return Err(Malformed),
        };
        Ok(Body::Fine { keeper, fine })
    }

    fn finished(&self) -> Result<Body, Malformed>
        ensures { Reads self.now.head result (read_finished self.now.keepers self.now.bytes.now self.now.head.night self.now.head.dealer) }
    {
        self.check_len(7)?;
        let keeper = self.keeper_at(6)?;
        if self.head.dealer != 0 {
            return Err(Malformed);
        }
        Ok(Body::Finished { keeper })
    }

    fn value(&self) -> Result<Body, Malformed>
        ensures { Reads self.now.head result (read_value self.now.keepers self.now.bytes.now self.now.head.night self.now.head.dealer) }
    {
        self.check_len(15)?;
        let keeper = self.keeper_at(6)?;
        let value = self.element_at(7)?;
        if self.head.dealer != 0 {
            return Err(Malformed);
        }
        Ok(Body::Value { keeper, value })
    }

    // By the first byte.
    fn body(&self) -> Result<Body, Malformed>
        requires { 0 < length self.now.bytes.now }
        ensures { Reads self.now.head result (by_kind self.now.keepers self.now.shape.high self.now.shape.low self.now.bytes.now (slice_index self.now.bytes.now 0) self.now.head.night self.now.head.dealer) }
    {
        match Kind::try_from(self.bytes[0])? {
            Kind::Share => self.share(),
            Kind::Told => self.told(),
            Kind::Complaint => self.complaint(),
            Kind::Reveal => self.reveal(),
            Kind::Fine => self.fine(),
            Kind::Finished => self.finished(),
            Kind::Value => self.value(),
        }
    }
}

// Reads a message among so many keepers, with shares of this shape. It is the message in range that has these bytes; what no such message has is refused.
pub fn read(bytes: &[u8], keepers: u8, shape: Shape) -> Result<Message, Malformed>
    ensures parses { MatchResult result (λ m. parse keepers shape.high shape.low bytes.now ≡ Some (message_of m)) (λ _. parse keepers shape.high shape.low bytes.now ≡ None) }
    ensures written { MatchResult result (λ m. (bytes.now ≡ wire (message_of m)) × InRange keepers shape.high shape.low (message_of m)) (λ _. (m : rules.Message) → InRange keepers shape.high shape.low m → bytes.now ≢ wire m) }
{
    if bytes.len() < 6 || bytes[5] >= keepers {
        return Err(Malformed);
    }
    let head = Head {
        night: u32::from_be_bytes(array_at(bytes, 1)),
        dealer: bytes[5],
    };
    let frame = Frame {
        bytes,
        keepers,
        shape,
        head,
    };
    let body = frame.body()?;
    Ok(Message { head, body })
}
