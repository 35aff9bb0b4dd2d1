// A list in the order of its keys.
ghost use Rattle.std.specs.Prelude.{◌≤◌, length, take};
ghost use Rattle.ordered_list.specs.Entries.{ranks};
ghost use Rattle.ordered_list.specs.Order.{Rising};

use crate::entry::Entry;

// The entries are the first `count` of the places. The places are lent, so that a list takes no
// memory of its own.
#[derive(Drop)]
pub struct OrderedList<'a, V> {
    pub(crate) memory: &'a mut [Entry<V>],
    pub(crate) count: usize,
    ghost within: { count ≤ length memory.now },
    ghost ordered: { Rising (ranks (take count memory.now)) },
}
