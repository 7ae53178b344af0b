//! Lists of at most a fixed number of items, with no allocation.

#![tactic(auto)]

ghost use Rattle.std.specs.Prelude.{◌≡◌, ◌≤◌, ⊤};

use std::alloc::AllocError;

pub mod items;

/// At most `N` items, in order. It is `Copy` where the items are, which the library's `ArrayVec` is not.
#[derive(Drop)]
pub struct BoundedList<T, const N: usize> {
    count: usize,
    items: [T; N],
    ghost within: { count ≤ N },
}

// By hand: a derive of `Clone` is refused on a generic struct with a ghost field.
impl<T: Copy, const N: usize> Copy for BoundedList<T, N> {}

impl<T: Copy, const N: usize> Clone for BoundedList<T, N> {
    ghost is_clone = { λ list copy. copy ≡ list };

    ghost is_infallible = { λ _. ⊤ };

    fn clone(&self) -> Result<BoundedList<T, N>, AllocError> {
        Ok(*self)
    }
}
