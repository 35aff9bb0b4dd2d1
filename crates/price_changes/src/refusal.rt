// Why the prices of a history are not changed.
ghost use Rattle.std.specs.Prelude.{◌≡◌};
ghost use Rattle.price_changes.specs.Refusals.{change_number};

#[derive(Clone, Copy, PartialEq, Eq, Debug)]
pub enum ChangeRefusal {
    // more prices than the history's greatest number
    Full,
}

impl ChangeRefusal {
    // The number that it is told by; `u8::from` would not say which number.
    pub fn number(self) -> u8
        ensures { result ≡ change_number self }
    {
        match self {
            ChangeRefusal::Full => 11,
        }
    }
}
