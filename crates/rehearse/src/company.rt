// How many keepers there are.
ghost use Rattle.std.specs.Prelude.{◌≡◌, ◌*◌, ◌<◌, ◌≤◌, MatchOption, MatchResult};

use crate::expected::Expected;

// 3f + 1 keepers, of whom f may lie.
#[derive(Clone, Copy)]
pub struct Company {
    f: u8,
    ghost small: { f ≤ 2 },
}

impl Company {
    // No company has more keepers.
    pub const MOST: u8 = 7;

    pub fn new(f: u8) -> Option<Company>
        ensures { MatchOption result (2 < f) (λ c. c.f ≡ f) }
    {
        if f > 2 {
            return None;
        }
        Some(Company { f })
    }

    pub fn f(self) -> u8
        ensures { (result ≡ self.f) × (result ≤ 2) }
    {
        self.f
    }

    // The last of the keepers.
    pub fn last(self) -> u8
        ensures { (result ≡ 3 * self.f) × (result ≤ 6) }
    {
        3 * self.f
    }

    // A keeper, if there is one of that number.
    pub fn keeper(self, number: u8) -> Result<u8, Expected>
        ensures { MatchResult result (λ k. (k ≡ number) × (k ≤ 3 * self.f) × (k ≤ 6)) (λ _. 3 * self.f < number) }
    {
        let last = self.last();
        if number > last {
            return Err(Expected::Keeper { last });
        }
        Ok(number)
    }

    // Two keepers, if there are such.
    pub fn pair(self, a: u8, b: u8) -> Result<(u8, u8), Expected>
        ensures { MatchResult result (λ x. (x.0 ≡ a) × (x.1 ≡ b) × (a ≤ 3 * self.f) × (b ≤ 3 * self.f)) (λ _. (a ≤ 3 * self.f) × (b ≤ 3 * self.f) → ⊥) }
    {
        Ok((self.keeper(a)?, self.keeper(b)?))
    }
}
