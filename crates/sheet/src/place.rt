// Where a sheet belongs.
ghost use Rattle.std.specs.Prelude.{◌≤◌};

// A settlement period (an hour, 1 to 24) of a day of the month, in a zone.
#[derive(Clone, Copy, Debug, PartialEq, Eq)]
pub struct Place {
    pub zone: u16,
    pub day: u16,
    pub period: u16,
    ghost zone_from: { 1 ≤ zone },
    ghost zone_to: { zone ≤ 2 },
    ghost day_from: { 1 ≤ day },
    ghost day_to: { day ≤ 31 },
    ghost period_from: { 1 ≤ period },
    ghost period_to: { period ≤ 24 },
}
