// How a list is made and read.
ghost use Rattle.std.specs.Prelude.{◌≡◌, length};
ghost use Rattle.ordered_list.specs.Finding.{Found};
ghost use Rattle.ordered_list.specs.Listings.{entries, listing, empty_listing};

use crate::entry::Entry;
use crate::list::OrderedList;
use crate::ranked::Ranked;

impl<'a, V: Copy> OrderedList<'a, V> {
    // An empty list, whatever the memory held. Each of its places can take an entry.
    pub fn over(memory: &'a mut [Entry<V>]) -> OrderedList<'a, V>
        ensures { listing result ≡ empty_listing (length memory.old) }
    {
        OrderedList { memory, count: 0 }
    }

    pub fn count(&self) -> usize
        ensures { result ≡ (listing self.now).count }
    {
        self.count
    }

    pub fn places(&self) -> usize
        ensures { result ≡ (listing self.now).places }
    {
        self.memory.len()
    }

    fn entries(&self) -> &[Entry<V>]
        ensures { result.now ≡ entries self.now }
    {
        &self.memory[..self.count]
    }

    // Where the rank stands, or would stand.
    pub(crate) fn find(&self, rank: u32) -> Result<usize, usize>
        ensures { Found (entries self.now) rank result }
    {
        self.entries()
            .binary_search_by_key(&rank, |entry| entry.rank)
    }

    // The value of the key.
    pub fn get<K: Ranked>(&self, key: &K) -> Option<V>
        ensures { result ≡ (listing self.now).shown (K.Ranked.order key.now) }
    {
        let at = self.find(key.rank()).ok()?;
        Some(self.entries()[at].value)
    }
}
