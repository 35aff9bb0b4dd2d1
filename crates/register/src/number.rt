// Numbers from 1 to a greatest one.
ghost use Rattle.std.specs.Prelude.{◌≤◌};

#[derive(Clone, Copy, PartialEq, Eq, PartialOrd, Ord)]
pub struct Number<const MOST: u16> {
    pub number: u16,
    ghost from: { 1 ≤ number },
    ghost to: { number ≤ MOST },
}
