// Values entered into a list, and struck from it.
ghost use Rattle.std.specs.Prelude.{◌≡◌, ◌<◌, length, slice_index_or};
ghost use Rattle.std.specs.List.{insert, remove};
ghost use Rattle.ordered_list.specs.declared.entry.Entry.{Entry};
ghost use Rattle.ordered_list.specs.Entries.{ranks};
ghost use Rattle.ordered_list.specs.Finding.{Before};
ghost use Rattle.ordered_list.specs.Listings.{entries, listing, entry_answer, entered, strike_answer, struck};

use crate::entry::{Entry, EntryRefusal, StrikeRefusal};
use crate::list::OrderedList;
use crate::places::{insert_at, remove_at};
use crate::ranked::Ranked;

impl<'a, V: Copy> OrderedList<'a, V> {
    fn insert(&mut self, at: usize, entry: Entry<V>)
        requires free { length (entries self.old) < length self.old.memory.now }
        requires belongs { Before (ranks (entries self.old)) entry.rank at }
        ensures entries { entries self.new ≡ insert (entries self.old) at entry }
        ensures places { length self.new.memory.now ≡ length self.old.memory.now }
    {
        let count = self.count;
        insert_at(self.memory, count, at, entry);
        self.count = count + 1;
    }

    fn remove(&mut self, at: usize) -> V
        requires { at < length (entries self.old) }
        ensures value { (d : Entry V) → result ≡ (slice_index_or (entries self.old) at d).value }
        ensures entries { entries self.new ≡ remove (entries self.old) at }
        ensures places { length self.new.memory.now ≡ length self.old.memory.now }
    {
        let value = self.memory[at].value;
        let count = self.count;
        self.count = count - 1;
        remove_at(self.memory, count, at);
        value
    }

    // Enters a value under its key.
    pub fn enter<K: Ranked>(&mut self, key: &K, value: V) -> Result<(), EntryRefusal>
        ensures answer { result ≡ entry_answer (listing self.old) (K.Ranked.order key.now) }
        ensures after { listing self.new ≡ entered (listing self.old) (K.Ranked.order key.now) value }
    {
        let rank = key.rank();
        let Err(at) = self.find(rank) else {
            return Err(EntryRefusal::Present);
        };
        if self.count == self.memory.len() {
            return Err(EntryRefusal::Full);
        }
        self.insert(at, Entry { rank, value });
        Ok(())
    }

    // Takes out the value of a key.
    pub fn strike<K: Ranked>(&mut self, key: &K) -> Result<V, StrikeRefusal>
        ensures answer { result ≡ strike_answer (listing self.old) (K.Ranked.order key.now) }
        ensures after { listing self.new ≡ struck (listing self.old) (K.Ranked.order key.now) }
    {
        let at = self.find(key.rank()).ok().ok_or(StrikeRefusal::Absent)?;
        Ok(self.remove(at))
    }
}
