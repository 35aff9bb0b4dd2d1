// Lists with a fixed number of places.
ghost use Rattle.std.specs.Prelude.{◌≡◌, length};

use std::alloc::AllocError;

// The first `len` of `items`. The count is plain data: past the places it stands for all of them,
// which an ArrayVec, whose count is within its places, could not say.
// `full` says how many places there are, since a definition sees the array as a list.
#[derive(Copy)]
pub struct Entries<T, const N: usize> {
    pub items: [T; N],
    pub len: usize,
    ghost full: { length items ≡ N },
}

// Beside a ghost field Clone is not derived for a generic type.
impl<T: Copy, const N: usize> Clone for Entries<T, N> {
    ghost is_clone = { λ a b. a ≡ b };

    ghost is_infallible = { λ _. Unit {0} };

    fn clone(&self) -> Result<Entries<T, N>, AllocError> {
        Ok(*self)
    }
}
