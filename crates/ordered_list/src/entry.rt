// What stands in the places of a list.

#[derive(Clone, Copy, PartialEq, Eq)]
pub struct Entry<V> {
    pub rank: u32,
    pub value: V,
}

// Why a value is not entered: its key is in the list, or no place is free.
#[derive(Clone, Copy, PartialEq, Eq, Debug)]
pub enum EntryRefusal {
    Present,
    Full,
}

// Why a value is not struck: its key is not in the list.
#[derive(Clone, Copy, PartialEq, Eq, Debug)]
pub enum StrikeRefusal {
    Absent,
}
