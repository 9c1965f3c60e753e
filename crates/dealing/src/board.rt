// What stands on the board about a dealing, and what follows from it.
ghost use Rattle.std.specs.Prelude.{◌≡◌, false};
ghost use Rattle.algebra.specs.Counting.{count};
ghost use Rattle.algebra.specs.Sharing.{pair_at};
ghost use Rattle.algebra.specs.Prime.{p};
ghost use Rattle.dealing.specs.Model.{hand_of, posts_of, setting_of};
ghost use Rattle.polynomial.specs.Lists.{held, said};
ghost use Rattle.rules.specs.Rounds.{Complaint, Fine, Reveal, all_fits, any, complained, complaint, differs, every, keepers, mine, posted_it, revealed, said_fine, settles, shows};
ghost use Rattle.rules.specs.Deal.{or_else};
ghost use Rattle.rules.specs.Seat.{accepted};
ghost use Rattle.std.specs.Option.{option_map};

use crate::places::{at, put};
use crate::types::{Board, Seat, Terms};
use polynomial::{Pair, Share};

impl Board {
    // The complaint of one keeper about another; two numbers and no pair of them, since whoever asks has each from elsewhere.
    pub(crate) fn complaint(&self, by: u8, about: u8) -> Option<Pair>
        ensures { option_map said result ≡ complaint (posts_of self.now) by about }
    {
        at(self.complaints.get(usize::from(by))?, usize::from(about))
    }

    // The share of a keeper that was revealed.
    pub(crate) fn revealed(&self, k: u8) -> Option<Share>
        ensures { option_map held result ≡ revealed (posts_of self.now) k }
    {
        at(&self.reveals, usize::from(k))
    }

    // What a keeper said at the end.
    pub(crate) fn said_fine(&self, i: u8) -> Option<bool>
        ensures { result ≡ said_fine (posts_of self.now) i }
    {
        at(&self.fines, usize::from(i))
    }

    // One keeper complains about another. By index, as `put` writes.
    #[tactic(auto, using(crate::proofs::Tables::written))]
    pub(crate) fn complain(&mut self, by: u8, about: u8, pair: Pair)
        ensures { posts_of self.new ≡ posted_it (posts_of self.old) by (Complaint about (said pair)) }
    {
        let by = usize::from(by);
        let complaints = &mut self.complaints;
        if by < complaints.len() {
            put(&mut complaints[by], usize::from(about), pair);
        }
    }

    // A keeper's share is revealed, by whomever.
    #[tactic(auto, using(crate::proofs::Tables::written))]
    pub(crate) fn reveal(&mut self, k: u8, share: Share)
        ensures { posts_of self.new ≡ posted_it (posts_of self.old) k (Reveal k (held share)) }
    {
        put(&mut self.reveals, usize::from(k), share);
    }

    // A keeper says whether all fits.
    pub(crate) fn judge(&mut self, i: u8, fine: bool)
        ensures { posts_of self.new ≡ posted_it (posts_of self.old) i (Fine fine) }
    {
        put(&mut self.fines, usize::from(i), fine);
    }

    // How many have said that all fits.
    fn fines(&self, terms: &Terms) -> usize
        ensures { result ≡ count (keepers (setting_of terms.now)) (λ i. or_else false (said_fine (posts_of self.now) i)) }
    {
        let mut fines = 0;
        // A `for`: `filter` and `count` take twice the time.
        for fine in &self.fines[..usize::from(terms.keepers())] {
            if fine.unwrap_or(false) {
                fines += 1;
            }
        }
        fines
    }

    // Is the dealing accepted?
    pub fn accepted(&self, terms: &Terms) -> bool
        ensures { result ≡ accepted (setting_of terms.now) (posts_of self.now) }
    {
        self.fines(terms) >= 2 * usize::from(terms.f) + 1
    }

    // Do two keepers that complain about each other say the same, or is one revealed?
    fn settles(&self, a: u8, b: u8) -> bool
        ensures { let q = posts_of self.now in
            result ≡ settles (complaint q a b) (complaint q b a) (revealed q a) (revealed q b) }
    {
        match (self.complaint(a, b), self.complaint(b, a)) {
            (Some(x), Some(y)) => {
                x == y.swap() || self.revealed(a).is_some() || self.revealed(b).is_some()
            }
            _ => true,
        }
    }
}

impl Seat {
    // Has keeper k complained?
    pub(crate) fn complained(&self, k: u8) -> bool
        ensures { result ≡ complained (setting_of self.now.terms) (posts_of self.now.board) k }
    {
        (0..self.terms.keepers()).any(|b| self.board.complaint(k, b).is_some())
    }

    // Has keeper k complained with other numbers than the share gives that it was dealt?
    pub(crate) fn wrong(&self, dealt: &Share, k: u8) -> bool
        ensures { let q = posts_of self.now.board in
            result ≡ any (keepers (setting_of self.now.terms)) (λ b. differs (complaint q k b) (pair_at p (held dealt.now) b)) }
    {
        (0..self.terms.keepers()).any(|b| self
            .board
            .complaint(k, b)
            .is_some_and(|pair| pair != dealt.pair_at(b)))
    }

    // Has what was revealed of keeper k the right lengths, and does it agree with this keeper's own share?
    fn shows(&self, mine: &Share, k: u8) -> bool
        ensures { result ≡ shows (setting_of self.now.terms) self.now.terms.me (held mine.now) k (revealed (posts_of self.now.board) k) }
    {
        self.board.revealed(k).is_none_or(|share| share.has(self.terms.shape)
            && mine.agrees(self.terms.me, &share, k))
    }

    fn all_shown(&self, mine: &Share) -> bool
        ensures { let s = setting_of self.now.terms in
            let q = posts_of self.now.board in
            result ≡ every (keepers s) (λ k. shows s self.now.terms.me (held mine.now) k (revealed q k)) }
    {
        (0..self.terms.keepers()).all(|k| self.shows(mine, k))
    }

    fn settled(&self, a: u8) -> bool
        ensures { let q = posts_of self.now.board in
            result ≡ every (keepers (setting_of self.now.terms)) (λ b. settles (complaint q a b) (complaint q b a) (revealed q a) (revealed q b)) }
    {
        (0..self.terms.keepers()).all(|b| self.board.settles(a, b))
    }

    fn all_settled(&self) -> bool
        ensures { let s = setting_of self.now.terms in
            let q = posts_of self.now.board in
            result ≡ every (keepers s) (λ a. every (keepers s) (λ b. settles (complaint q a b) (complaint q b a) (revealed q a) (revealed q b))) }
    {
        (0..self.terms.keepers()).all(|a| self.settled(a))
    }

    // Does all fit for the keeper, with its share?
    pub(crate) fn all_fits(&self) -> bool
        ensures { let s = setting_of self.now.terms in
            let me = self.now.terms.me in
            result ≡ all_fits s me (mine s me (hand_of self.now.hand)) (posts_of self.now.board) }
    {
        self.board.revealed(self.terms.me).is_none()
            && self.all_shown(&self.mine())
            && self.all_settled()
    }

    // Is the dealing accepted?
    pub fn accepted(&self) -> bool
        ensures { result ≡ accepted (setting_of self.now.terms) (posts_of self.now.board) }
    {
        self.board.accepted(&self.terms)
    }
}
