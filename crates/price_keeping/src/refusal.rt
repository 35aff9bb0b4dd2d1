// Why a history refuses.
ghost use Rattle.std.specs.Prelude.{◌≡◌};
ghost use Rattle.price_keeping.specs.Refusals.{keep_number, memory_number};

#[derive(Clone, Copy, PartialEq, Eq, Debug)]
pub enum KeepRefusal {
    // the key has a price
    Present,
    // no place is free
    Full,
    // the key has no price
    Absent,
}

// Why memory is not taken for a table.
#[derive(Clone, Copy, PartialEq, Eq, Debug)]
pub enum MemoryRefusal {
    // it has too few places
    Short,
}

impl KeepRefusal {
    // The number that it is told by; `u8::from` would not say which number.
    pub fn number(self) -> u8
        ensures { result ≡ keep_number self }
    {
        match self {
            KeepRefusal::Present => 9,
            KeepRefusal::Absent => 10,
            KeepRefusal::Full => 11,
        }
    }
}

impl MemoryRefusal {
    // The number that it is told by; `u8::from` would not say which number.
    pub fn number(self) -> u8
        ensures { result ≡ memory_number self }
    {
        match self {
            MemoryRefusal::Short => 15,
        }
    }
}
