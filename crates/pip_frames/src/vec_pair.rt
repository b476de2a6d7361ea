//! Two items of a vector, lent at once.
ghost use Rattle.std.specs.Prelude.{◌≡◌, ◌≢◌, ◌<◌, slice_index_or};
ghost use Rattle.std.specs.Borrow.{sem};
ghost use Rattle.std.specs.Vec.{vec_len, vec_ptr, vec_follows_item};

use std::alloc::Allocator;

/// The item at `read` to read, and the one at `write` to write, of a vector whose items lie from `at` on.
// Proved by hand: the check follows a returned borrow back to a field or to one call's result, and an item from each
// half of `split_at_mut` is neither. It promises that each loan has what the vector held there, and that the vector
// ends with what is left in the second.
fn item_pair_at<T, B: Allocator>(
    items: &mut Vec<T, B>,
    at: *mut T,
    read: usize,
    write: usize,
) -> (&T, &mut T)
    requires { (at ≡ vec_ptr items.old) × (read < vec_len items.old) × (write < vec_len items.old)
        × (read ≢ write) }
    ensures* writes_back { sem 𝓛 (vec_follows_item T.row B.row B.Allocator items.entry write result.1) }
    ensures values { (result.0.now ≡ slice_index_or items.old.items read result.0.now)
        × (result.1.now ≡ slice_index_or items.old.items write result.1.now) }
{
    unsafe { (&*at.add(read), &mut *at.add(write)) }
}

/// The item at `read` to read, and the one at `write` to write. The two are different places below the vector's length.
pub(crate) fn item_pair<T, B: Allocator>(
    items: &mut Vec<T, B>,
    read: usize,
    write: usize,
) -> (&T, &mut T)
    requires read { read < vec_len items.old }
    requires write { write < vec_len items.old }
    requires apart { read ≢ write }
    ensures* writes_back { sem 𝓛 (vec_follows_item T.row B.row B.Allocator items.entry write result.1) }
    ensures read { result.0.now ≡ slice_index_or items.old.items read result.0.now }
    ensures write { result.1.now ≡ slice_index_or items.old.items write result.1.now }
{
    let at = items.as_mut_ptr();
    item_pair_at(items, at, read, write)
}
