// What can be done with a list of a fixed number of places.
ghost use Rattle.std.specs.Prelude.{◌≡◌, ◌≤◌, [], ◌∷◌, ◌++◌, length, if◌then◌else◌, is_ok, nat_lt};
ghost use Rattle.sheet.specs.Listed.{listed};

use crate::entries::Entries;

// A list has no place left for an entry: one error, which has no cases.
#[derive(Clone, Copy, Debug, PartialEq, Eq)]
pub struct NoPlace;

impl<T: Copy, const N: usize> Entries<T, N> {
    // No entry yet; the filler stands in the places, and counts for nothing.
    pub fn empty(filler: T) -> Entries<T, N>
        ensures { listed result ≡ [] }
    {
        Entries {
            items: [filler; N],
            len: 0,
        }
    }

    pub fn as_slice(&self) -> &[T]
        ensures value { result.now ≡ listed self.now }
        ensures few { length result.now ≤ N }
    {
        &self.items[..self.len.min(N)]
    }

    // Puts an entry at the end. Where there is no place left, all stays as it is.
    pub fn push(&mut self, item: T) -> Result<(), NoPlace>
        ensures room { is_ok result ≡ nat_lt (length (listed self.old)) N }
        ensures after { listed self.new ≡ (if is_ok result then listed self.old ++ item ∷ [] else listed self.old) }
    {
        if self.len >= N {
            return Err(NoPlace);
        }
        self.items[self.len] = item;
        self.len += 1;
        Ok(())
    }
}
