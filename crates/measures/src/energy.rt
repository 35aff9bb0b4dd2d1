// Energy.
ghost use Rattle.std.specs.Prelude.{◌≤◌, unsigned_abs};

// An amount of energy summed over lines and periods, in kWh.
#[derive(Clone, Copy, Debug, PartialEq, Eq, PartialOrd, Ord)]
pub struct Energy {
    pub kwh: i64,
    ghost limited: { unsigned_abs kwh ≤ 1000000000000000000 },
}
