// Why the register refuses.
ghost use Rattle.std.specs.Prelude.{◌≡◌};
ghost use Rattle.register.specs.Refusals.{refusal_number};

#[derive(Clone, Copy, PartialEq, Eq, Debug)]
pub enum RegisterRefusal {
    // a unit or a party beyond its limits
    Limits,
    // the unit is registered
    Present,
    // no place is free
    Full,
}

impl RegisterRefusal {
    // The number that it is told by; `u8::from` would not say which number.
    pub fn number(self) -> u8
        ensures { result ≡ refusal_number self }
    {
        match self {
            RegisterRefusal::Limits => 14,
            RegisterRefusal::Present => 9,
            RegisterRefusal::Full => 11,
        }
    }
}
