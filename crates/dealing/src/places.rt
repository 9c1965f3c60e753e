// Places that are free or taken, one for each keeper.
ghost use Rattle.std.specs.Prelude.{◌≡◌, None, Some, slice_index_or, slice_set};

// What stands in place k; nothing, past the end.
pub(crate) fn at<T: Copy>(places: &[Option<T>], k: usize) -> Option<T>
    ensures { result ≡ slice_index_or places.now k None }
{
    *places.get(k)?
}

// Writes to place k; past the end, nowhere. By index: after a write through `get_mut` nothing is known of the places.
pub(crate) fn put<T: Copy>(places: &mut [Option<T>], k: usize, x: T)
    ensures { places.new ≡ slice_set places.old k (Some x) }
{
    if k < places.len() {
        places[k] = Some(x);
    }
}
