// The rounds of a seat, from the first to what is kept.
ghost use Rattle.std.specs.Prelude.{◌≡◌, ◌+◌, ◌*◌, ◌<◌, ◌≤◌, MatchOption};
ghost use Rattle.dealing.specs.Model.{hand_of, number, posts_of, state_of, terms_of};
ghost use Rattle.polynomial.specs.Lists.{held, rows_of};
ghost use Rattle.rules.specs.Rounds.{nothing_heard, nothing_posted};
ghost use Rattle.rules.specs.Seat.{called, decided, own_deal, own_share, seated};
ghost use Rattle.std.specs.Option.{option_map};

use crate::types::{Board, Hand, Round, Seat, Terms};
use field::Element;
use polynomial::{Bivariate, Shape, Share};

impl Terms {
    // A dealing among 3f + 1 keepers; none, if f is past 5, who deals or sits isn't a keeper, or shares are longer than f + 1.
    pub fn new(f: u8, night: u32, dealer: u8, me: u8, shape: Shape) -> Option<Terms>
        ensures { MatchOption result ((f ≤ 5) × (dealer < 3 * f + 1) × (me < 3 * f + 1) × (shape.high ≤ f + 1) × (shape.low ≤ f + 1) → ⊥) (λ t. (t.f ≡ f) × (t.night ≡ night) × (t.dealer ≡ dealer) × (t.me ≡ me) × (t.shape ≡ shape)) }
    {
        if f > 5 || dealer >= 3 * f + 1 || me >= 3 * f + 1 {
            return None;
        }
        let most = usize::from(f) + 1;
        if shape.high() > most || shape.low() > most {
            return None;
        }
        Some(Terms {
            f,
            night,
            dealer,
            me,
            shape,
        })
    }
}

impl Hand {
    pub(crate) fn empty() -> Hand
        ensures { hand_of result ≡ nothing_heard }
    {
        Hand {
            share: None,
            told: [None; 16],
        }
    }
}

impl Board {
    pub(crate) fn empty() -> Board
        ensures { posts_of result ≡ nothing_posted }
    {
        Board {
            complaints: [[None; 16]; 16],
            reveals: [None; 16],
            fines: [None; 16],
        }
    }
}

impl Seat {
    // A seat before the first round; whoever deals brings its polynomial.
    pub fn new(terms: Terms, chance: Option<Bivariate>) -> Seat
        ensures { (state_of result ≡ seated (option_map rows_of chance)) × (result.terms ≡ terms) }
    {
        Seat {
            terms,
            round: Round::Before,
            chance,
            hand: Hand::empty(),
            board: Board::empty(),
            kept: None,
        }
    }

    // A dealer's share of its own polynomial.
    fn own_deal(&self) -> Option<Share>
        ensures { option_map held result ≡ own_deal (terms_of self.now.terms) (state_of self.now) }
    {
        self.deals().map(|dealt| dealt.share(self.terms.me))
    }

    // The share that the keeper goes on with: what was revealed of it, or else what it got.
    pub fn own(&self) -> Share
        ensures { held result ≡ own_share (terms_of self.now.terms) (state_of self.now) }
    {
        self.board
            .revealed(self.terms.me)
            .unwrap_or_else(|| self.mine())
    }

    // The value of an accepted dealing.
    fn decided(&self) -> Option<Element>
        ensures { option_map number result ≡ decided (terms_of self.now.terms) (state_of self.now) }
    {
        self.accepted().then(|| self.own().value())
    }

    // The next round is called. The last keeps the value of an accepted dealing and forgets all else.
    pub fn call(&mut self)
        ensures called { state_of self.new ≡ called (terms_of self.old.terms) (state_of self.old) }
        ensures terms { self.new.terms ≡ self.old.terms }
    {
        match self.round {
            Round::Before => {
                self.hand.share = self.own_deal();
                self.round = Round::Deal;
            }
            Round::Deal => self.round = Round::Tell,
            Round::Tell => self.round = Round::Complain,
            Round::Complain => self.round = Round::Reveal,
            Round::Reveal => self.round = Round::Judge,
            Round::Judge => {
                self.kept = self.decided();
                self.chance = None;
                self.hand = Hand::empty();
                self.round = Round::Decided;
            }
            Round::Decided => {}
        }
    }
}
