mod list;
mod short;

ghost use Rattle.std.specs.Prelude.{◌≡◌, ◌≤◌, length, ⊤};

pub use short::Short;
use std::alloc::AllocError;

// At most N items, in order, in the value itself: the first `len` of `items`. What lies behind
// them means nothing. It can be copied, as the kit's `ArrayVec` cannot.
pub struct Few<T, const N: usize> {
    items: [T; N],
    len: usize,
    ghost whole: { length items ≡ N },
    ghost room: { len ≤ N },
}

// A clone is the same items, and never fails.
impl<T: Copy, const N: usize> Clone for Few<T, N> {
    ghost is_clone = { λ few again. again ≡ few };

    ghost is_infallible = { λ _. ⊤ };

    fn clone(&self) -> Result<Few<T, N>, AllocError> {
        Ok(*self)
    }
}

impl<T: Copy, const N: usize> Copy for Few<T, N> {}
