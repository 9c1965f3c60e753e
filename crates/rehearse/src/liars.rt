// Who lies.
ghost use Rattle.std.specs.Prelude.{◌≡◌, ◌≤◌, All, OnOk, if◌then◌else◌, nat_eq};
ghost use Rattle.std.specs.List.{list_any, push};

use std::alloc::AllocError;

// The keepers that lie, each once.
#[derive(Drop)]
pub struct Liars {
    pub keepers: Vec<u8>,
    ghost there: { All (λ keeper. keeper ≤ 6) keepers.items },
}

impl Clone for Liars {
    ghost is_clone = { λ x y. y.keepers.items ≡ x.keepers.items };

    fn clone(&self) -> Result<Liars, AllocError> {
        Ok(Liars {
            keepers: self.keepers.clone()?,
        })
    }
}

impl Liars {
    // Does a keeper lie?
    pub fn contains(&self, keeper: u8) -> bool
        requires { keeper ≤ 6 }
        ensures { result ≡ list_any (λ liar. nat_eq liar keeper) self.now.keepers.items }
    {
        self.keepers.contains(&keeper)
    }

    // A keeper lies from now on.
    pub fn insert(&mut self, keeper: u8) -> Result<(), AllocError>
        requires { keeper ≤ 6 }
        ensures { OnOk result (self.new.keepers.items ≡ (if list_any (λ liar. nat_eq liar keeper) self.old.keepers.items then self.old.keepers.items else push self.old.keepers.items keeper)) }
    {
        if !self.contains(keeper) {
            self.keepers.push(keeper)?;
        }
        Ok(())
    }
}
