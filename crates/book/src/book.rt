// The book of a month.
ghost use Rattle.std.specs.Prelude.{◌≤◌};

// Decades are closed in their order, so that their number says which.
#[derive(Clone, Copy, Debug, PartialEq, Eq)]
pub struct Book {
    pub days: u16,
    pub zones: u16,
    // how many decades are closed
    pub closed: u16,
    ghost days_from: { 28 ≤ days },
    ghost days_to: { days ≤ 31 },
    ghost zones_from: { 1 ≤ zones },
    ghost zones_to: { zones ≤ 2 },
    ghost closed_to: { closed ≤ 3 },
}
