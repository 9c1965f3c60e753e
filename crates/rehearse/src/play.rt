// A dealing that is played: one seat for each keeper, and all that crosses between them as bytes.
ghost use Rattle.std.specs.Prelude.{◌≡◌, ◌+◌, ◌*◌, ◌≤◌, ◌↔◌, All, IfOk, IfSome, IsTrue, MatchOption, OnSome, length, slice_get, slice_index_or, ⊤};
ghost use Rattle.std.specs.Option.{option_copied};
ghost use Rattle.dealing.specs.Model.{state_of, terms_of};
ghost use Rattle.rules.specs.Seat.{mail_bytes};
ghost use Rattle.dealing.specs.declared.types.Round.TheVariants.{Decided};

use crate::company::Company;
use dealing::{Refusal, Round, Seat, Terms};
use message::{Message, write};
use polynomial::Bivariate;
use std::alloc::{AllocError, Global};

#[derive(Drop)]
pub struct Play {
    pub company: Company,
    pub dealer: u8,
    pub polynomial: Bivariate,
    // One for each keeper.
    pub seats: Vec<Seat>,
    ghost seated: { length seats.items ≡ 3 * company.f + 1 },
}

impl Clone for Play {
    ghost is_clone = { λ x y. (y.company ≡ x.company) × (y.dealer ≡ x.dealer) × (y.polynomial ≡ x.polynomial) × (y.seats.items ≡ x.seats.items) };

    fn clone(&self) -> Result<Play, AllocError> {
        Ok(Play {
            company: self.company,
            dealer: self.dealer,
            polynomial: self.polynomial,
            seats: self.seats.clone()?,
        })
    }
}

impl Play {
    // Nothing is called yet.
    pub fn new(
        heap: Global,
        company: Company,
        dealer: u8,
        polynomial: Bivariate,
    ) -> Result<Play, AllocError>
        requires { (dealer ≤ 3 * company.f) × ((polynomial.shape.high ≤ company.f + 1) × (polynomial.shape.low ≤ company.f + 1)) }
        ensures { IfOk result (λ play. (play.company ≡ company) × (play.dealer ≡ dealer) × (play.polynomial ≡ polynomial)) }
    {
        let mut seats = Vec::new(heap);
        for me in 0..=company.last() {
            let terms = Terms::new(company.f(), 0, dealer, me, polynomial.shape()).unwrap();
            seats.push(Seat::new(terms, (me == dealer).then_some(polynomial)))?;
        }
        Ok(Play {
            company,
            dealer,
            polynomial,
            seats,
        })
    }

    // Is there no other round to call?
    pub fn is_decided(&self) -> bool
        ensures { IsTrue result ↔ All (λ seat. seat.round ≡ Decided) self.now.seats.items }
    {
        self.seats.iter().all(|seat| seat.round == Round::Decided)
    }

    // The next round is called at every seat.
    pub fn call(&mut self) {
        for seat in self.seats.iter_mut() {
            seat.call();
        }
    }

    // Hands a keeper what another one sends it. If it is turned away, all seats stay as they were; else the keeper's seat,
    // if there is one, is as the rules say.
    pub fn mail(&mut self, from: u8, to: u8, bytes: &[u8]) -> Option<Refusal>
        requires { to ≤ 6 }
        ensures refused { OnSome result (self.new.seats.items ≡ self.old.seats.items) }
        ensures taken { MatchOption result (IfSome (slice_get self.old.seats.items to) (λ seat. state_of (slice_index_or self.new.seats.items to seat) ≡ (mail_bytes (terms_of seat.terms) (state_of seat) from bytes.now).0)) (λ _. ⊤) }
    {
        let seat = self.seats.get_mut(usize::from(to))?;
        seat.take_mail(from, bytes).err()
    }

    // Puts a line on the board, where every keeper sees it; all make the same of it.
    pub fn board(&mut self, who: u8, bytes: &[u8]) -> Option<Refusal> {
        let mut said = None;
        for seat in self.seats.iter_mut() {
            said = seat.take_board(who, bytes).err();
        }
        said
    }

    // The seat of a keeper, if there is one.
    fn seat(&self, keeper: u8) -> Option<&Seat>
        requires { keeper ≤ 6 }
        ensures { option_copied result ≡ slice_get self.now.seats.items keeper }
    {
        self.seats.get(usize::from(keeper))
    }

    // The bytes of what a keeper's seat says, if anything.
    fn said<F: FnOnce(&Seat) -> Option<Message>>(
        &self,
        heap: Global,
        from: u8,
        says: F,
    ) -> Result<Option<Vec<u8>>, AllocError>
        requires { (from ≤ 6) × F.IsAlwaysCallable says }
    {
        let message = self.seat(from).and_then(says);
        message.map(|message| write(heap, &message)).transpose()
    }

    // Keeper `from` sends keeper `to` what its seat would, if anything.
    pub fn say(&mut self, heap: Global, from: u8, to: u8) -> Result<Option<Refusal>, AllocError>
        requires { (from ≤ 6) × (to ≤ 6) }
    {
        let bytes = self.said(heap, from, |seat| seat.mail_to(to))?;
        Ok(bytes.and_then(|bytes| self.mail(from, to, bytes.as_slice())))
    }

    // A keeper puts on the board what its seat would about keeper k, if anything.
    fn line(&mut self, heap: Global, from: u8, k: u8) -> Result<Option<Refusal>, AllocError>
        requires { from ≤ 6 }
    {
        let bytes = self.said(heap, from, |seat| seat.line(k))?;
        Ok(bytes.and_then(|bytes| self.board(from, bytes.as_slice())))
    }

    // A keeper sends all mail that its seat would.
    pub fn say_all(&mut self, heap: Global, from: u8) -> Result<(), AllocError>
        requires { from ≤ 6 }
    {
        for to in 0..=self.company.last() {
            self.say(heap, from, to)?;
        }
        Ok(())
    }

    // A keeper puts on the board all that its seat would; the lines that were turned away.
    pub fn post(&mut self, heap: Global, from: u8) -> Result<Vec<Refusal>, AllocError>
        requires { from ≤ 6 }
        ensures { IfOk result (λ refused. length refused.items ≤ 7) }
    {
        let mut refused = Vec::new(heap);
        for k in 0..=self.company.last() {
            if let Some(why) = self.line(heap, from, k)? {
                refused.push(why)?;
            }
        }
        Ok(refused)
    }
}
