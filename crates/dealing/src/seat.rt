// A seat in a dealing, message by message.
ghost use Rattle.dealing.specs.Model.{Answered, Heard, Posted, refusal_of, round_of, state_of, terms_of};
ghost use Rattle.message.specs.Model.{message_of};
ghost use Rattle.polynomial.specs.Lists.{held, rows_of, said};
ghost use Rattle.rules.specs.Message as rules;
ghost use Rattle.rules.specs.Seat.{answer_to, board_bytes, board_taken, complaint_to, judgement, line_of, mail_bytes, mail_taken, mail_to, timely, unless};
ghost use Rattle.std.specs.Option.{option_copied, option_map};
ghost use Rattle.std.specs.Prelude.{◌≡◌, if◌then◌else◌, OnErr, Some, None, nat_eq};

use crate::types::{Refusal, Round, Seat};
use message::{Body, Head, Message, read};
use polynomial::{Bivariate, Pair, Share};

impl Seat {
    // A message of this dealing, in the round that is called.
    fn expect(&self, round: Round, head: Head) -> Result<(), Refusal>
        ensures { refusal_of result ≡ unless (timely (terms_of self.now.terms) (state_of self.now) head.night (round_of round)) 2 (unless (nat_eq head.dealer self.now.terms.dealer) 3 None) }
    {
        if head.night != self.terms.night || self.round != round {
            return Err(Refusal::Untimely);
        }
        if head.dealer != self.terms.dealer {
            return Err(Refusal::Unentitled);
        }
        Ok(())
    }

    fn hear_share(&mut self, from: u8, head: Head, share: Share) -> Result<(), Refusal>
        ensures { Heard self.old from (rules.Share head.night head.dealer (held share)) self.new result }
    {
        self.expect(Round::Deal, head)?;
        if from != self.terms.dealer || from == self.terms.me || self.hand.share.is_some() {
            return Err(Refusal::Unentitled);
        }
        self.hand.share = Some(share);
        Ok(())
    }

    fn hear_told(&mut self, from: u8, head: Head, pair: Pair) -> Result<(), Refusal>
        ensures { Heard self.old from (rules.Told head.night head.dealer (said pair)) self.new result }
    {
        self.expect(Round::Tell, head)?;
        if from == self.terms.me || self.hand.told_by(from).is_some() {
            return Err(Refusal::Unentitled);
        }
        self.hand.tell(from, pair);
        Ok(())
    }

    // Takes a message that keeper `from` sent, or turns it away.
    pub fn hear(&mut self, from: u8, message: Message) -> Result<(), Refusal>
        ensures ruled { Answered self.old (mail_taken (terms_of self.old.terms) (state_of self.old) from (message_of message)) self.new result }
        ensures refused { OnErr result (self.new ≡ self.old) }
    {
        if from >= self.terms.keepers() {
            return Err(Refusal::Malformed);
        }
        let Message { head, body } = message;
        match body {
            Body::Share(share) => self.hear_share(from, head, share),
            Body::Told(pair) => self.hear_told(from, head, pair),
            Body::Value { .. } => Err(Refusal::Untimely),
            _ => Err(Refusal::Malformed),
        }
    }

    // By whom and about whom, as in the message.
    fn post_complaint(
        &mut self,
        who: u8,
        head: Head,
        by: u8,
        about: u8,
        pair: Pair,
    ) -> Result<(), Refusal>
        ensures { Posted self.old who (rules.Complaint head.night head.dealer by about (said pair)) self.new result }
    {
        if about >= self.terms.keepers() {
            return Err(Refusal::Malformed);
        }
        self.expect(Round::Complain, head)?;
        if by != who || self.board.complaint(who, about).is_some() {
            return Err(Refusal::Unentitled);
        }
        if by == about {
            return Err(Refusal::Improper);
        }
        self.board.complain(by, about, pair);
        Ok(())
    }

    fn post_reveal(&mut self, who: u8, head: Head, keeper: u8, share: Share) -> Result<(), Refusal>
        ensures { Posted self.old who (rules.Reveal head.night head.dealer keeper (held share)) self.new result }
    {
        if keeper >= self.terms.keepers() {
            return Err(Refusal::Malformed);
        }
        self.expect(Round::Reveal, head)?;
        if who != self.terms.dealer || self.board.revealed(keeper).is_some() {
            return Err(Refusal::Unentitled);
        }
        if !self.complained(keeper) {
            return Err(Refusal::Improper);
        }
        self.board.reveal(keeper, share);
        Ok(())
    }

    fn post_fine(&mut self, who: u8, head: Head, keeper: u8, fine: bool) -> Result<(), Refusal>
        ensures { Posted self.old who (rules.Fine head.night head.dealer keeper fine) self.new result }
    {
        self.expect(Round::Judge, head)?;
        if keeper != who || self.board.said_fine(who).is_some() {
            return Err(Refusal::Unentitled);
        }
        self.board.judge(keeper, fine);
        Ok(())
    }

    // Takes a line of the board that keeper `who` put there, or passes it over.
    pub fn post(&mut self, who: u8, message: Message) -> Result<(), Refusal>
        ensures ruled { Answered self.old (board_taken (terms_of self.old.terms) (state_of self.old) who (message_of message)) self.new result }
        ensures refused { OnErr result (self.new ≡ self.old) }
    {
        if who >= self.terms.keepers() {
            return Err(Refusal::Malformed);
        }
        let Message { head, body } = message;
        match body {
            Body::Complaint { by, about, pair } => self.post_complaint(who, head, by, about, pair),
            Body::Reveal { keeper, share } => self.post_reveal(who, head, keeper, share),
            Body::Fine { keeper, fine } => self.post_fine(who, head, keeper, fine),
            Body::Finished { .. } => Err(Refusal::Untimely),
            _ => Err(Refusal::Malformed),
        }
    }

    // The polynomial of a dealer.
    pub(crate) fn deals(&self) -> Option<&Bivariate>
        ensures { option_map rows_of (option_copied result) ≡ (if nat_eq self.now.terms.me self.now.terms.dealer then option_map rows_of self.now.chance else None) }
    {
        self.chance
            .as_ref()
            .filter(|_| self.terms.me == self.terms.dealer)
    }

    // What it says, as a message of this dealing.
    fn says(&self, body: Body) -> Message
        ensures { result ≡ record { head = record { night = self.now.terms.night; dealer = self.now.terms.dealer }; body = body } }
    {
        Message {
            head: Head {
                night: self.terms.night,
                dealer: self.terms.dealer,
            },
            body,
        }
    }

    // What it sends keeper j in the round that is called.
    pub fn mail_to(&self, j: u8) -> Option<Message>
        ensures { option_map message_of result ≡ mail_to (terms_of self.now.terms) (state_of self.now) j }
    {
        if j == self.terms.me || j >= self.terms.keepers() {
            return None;
        }
        match self.round {
            Round::Deal => self
                .deals()
                .map(|dealt| self.says(Body::Share(dealt.share(j)))),
            Round::Tell => Some(self.says(Body::Told(self.mine().pair_at(j)))),
            _ => None,
        }
    }

    fn complaint_about(&self, k: u8) -> Option<Message>
        ensures { option_map message_of result ≡ complaint_to (terms_of self.now.terms) (state_of self.now) k }
    {
        self.doubts(k).then(|| self.says(Body::Complaint {
            by: self.terms.me,
            about: k,
            pair: self.mine().pair_at(k),
        }))
    }

    fn answer_to(&self, dealt: &Bivariate, k: u8) -> Option<Message>
        ensures { option_map message_of result ≡ answer_to (terms_of self.now.terms) (state_of self.now) (Some (rows_of dealt.now)) k }
    {
        let share = dealt.share(k);
        self.wrong(&share, k)
            .then(|| self.says(Body::Reveal { keeper: k, share }))
    }

    fn judgement(&self) -> Message
        ensures { message_of result ≡ judgement (terms_of self.now.terms) (state_of self.now) }
    {
        self.says(Body::Fine {
            keeper: self.terms.me,
            fine: self.all_fits(),
        })
    }

    // What it puts on the board in the round that is called: a line for each keeper k, or none.
    pub fn line(&self, k: u8) -> Option<Message>
        ensures { option_map message_of result ≡ line_of (terms_of self.now.terms) (state_of self.now) k }
    {
        if k >= self.terms.keepers() {
            return None;
        }
        match self.round {
            Round::Complain => self.complaint_about(k),
            Round::Reveal => self.deals().and_then(|dealt| self.answer_to(dealt, k)),
            Round::Judge if k == self.terms.me => Some(self.judgement()),
            _ => None,
        }
    }

    // Takes what keeper `from` sent, or turns it away.
    pub fn take_mail(&mut self, from: u8, bytes: &[u8]) -> Result<(), Refusal>
        ensures ruled { Answered self.old (mail_bytes (terms_of self.old.terms) (state_of self.old) from bytes.now) self.new result }
        ensures refused { OnErr result (self.new ≡ self.old) }
    {
        let message = read(bytes, self.terms.keepers(), self.terms.shape)?;
        self.hear(from, message)
    }

    // Takes a line of the board that keeper `who` put there, or passes it over. Beside `take_mail`: two lines each, and another contract.
    pub fn take_board(&mut self, who: u8, bytes: &[u8]) -> Result<(), Refusal>
        ensures ruled { Answered self.old (board_bytes (terms_of self.old.terms) (state_of self.old) who bytes.now) self.new result }
        ensures refused { OnErr result (self.new ≡ self.old) }
    {
        let message = read(bytes, self.terms.keepers(), self.terms.shape)?;
        self.post(who, message)
    }
}
