// What keepers go on with.
ghost use Rattle.std.specs.Prelude.{◌≡◌, ℕ, ◌<◌, length, None, slice_index_or};
ghost use Rattle.dealing.specs.Going.{goes_on};
ghost use Rattle.polynomial.specs.Lists.{held};
ghost use Rattle.std.specs.Option.{option_map};

use polynomial::Share;

// Each keeper goes on with what was revealed of its share, if it was, else with what it has.
pub fn go_on(revealed: &[Option<Share>], shares: &mut [Option<Share>])
    ensures { (k : ℕ) → k < length shares.old → option_map held (slice_index_or shares.new k None) ≡ goes_on (option_map held (slice_index_or revealed.now k None)) (option_map held (slice_index_or shares.old k None)) }
{
    // By place: after a `zip` of `iter_mut` nothing is known of what was written.
    for (k, share) in shares.iter_mut().enumerate() {
        if let Some(Some(shown)) = revealed.get(k) {
            *share = Some(*shown);
        }
    }
}
