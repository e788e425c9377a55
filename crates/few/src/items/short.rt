mod list;

ghost use Rattle.std.specs.Prelude.{◌≡◌, ◌≤◌, length, ⊤};

use std::alloc::AllocError;

// At most N items, and at most 255: as `Few`, with the length in a byte. For what stands in many
// places or is copied often, as the texts and the fields of cells.
pub struct Short<T, const N: usize> {
    items: [T; N],
    len: u8,
    ghost whole: { length items ≡ N },
    ghost room: { len ≤ N },
}

// A clone is the same items, and never fails.
impl<T: Copy, const N: usize> Clone for Short<T, N> {
    ghost is_clone = { λ short again. again ≡ short };

    ghost is_infallible = { λ _. ⊤ };

    fn clone(&self) -> Result<Short<T, N>, AllocError> {
        Ok(*self)
    }
}

impl<T: Copy, const N: usize> Copy for Short<T, N> {}
