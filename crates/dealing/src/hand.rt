// What a keeper makes of what it was sent and told.
ghost use Rattle.std.specs.Prelude.{◌≡◌, ◌+◌, ◌*◌, ◌≤◌};
ghost use Rattle.dealing.specs.Model.{hand_of, setting_of};
ghost use Rattle.polynomial.specs.Lists.{held, said};
ghost use Rattle.rules.specs.Rounds.{Told, doubts, heard_it, mine, told_by};
ghost use Rattle.std.specs.Option.{option_map};

use crate::places::{at, put};
use crate::types::{Hand, Seat, Terms};
use polynomial::{Pair, Share};

impl Terms {
    // How many keepers there are.
    pub fn keepers(&self) -> u8
        ensures { (result ≡ 3 * self.now.f + 1) × (result ≤ 16) }
    {
        3 * self.f + 1
    }
}

impl Hand {
    // What keeper j told.
    pub(crate) fn told_by(&self, j: u8) -> Option<Pair>
        ensures { option_map said result ≡ told_by (hand_of self.now) j }
    {
        at(&self.told, usize::from(j))
    }

    // Keeper j told this.
    #[tactic(auto, using(crate::proofs::Tables::written))]
    pub(crate) fn tell(&mut self, j: u8, pair: Pair)
        ensures { hand_of self.new ≡ heard_it (hand_of self.old) j (Told (said pair)) }
    {
        put(&mut self.told, usize::from(j), pair);
    }
}

impl Seat {
    // The share that the keeper goes on with: zeros where none came, or one that doesn't agree with itself.
    pub(crate) fn mine(&self) -> Share
        ensures { held result ≡ mine (setting_of self.now.terms) self.now.terms.me (hand_of self.now.hand) }
    {
        let Terms { me, shape, .. } = self.terms;
        self.hand
            .share
            .filter(|share| share.has(shape) && share.agrees_with_itself(me))
            .unwrap_or_else(|| Share::zeros(shape))
    }

    // Is there reason to complain about keeper j: was anything else told, or nothing, than what fits?
    pub(crate) fn doubts(&self, j: u8) -> bool
        ensures { result ≡ doubts (setting_of self.now.terms) self.now.terms.me (hand_of self.now.hand) j }
    {
        j != self.terms.me
            && self
                .hand
                .told_by(j)
                .is_none_or(|told| told != self.mine().pair_at(j).swap())
    }
}
