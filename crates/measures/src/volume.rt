// Volumes of electricity, by the span that they are for. Each span has a type of its own: one type with
// the limit as its parameter would say no more plainly which volume is meant.
ghost use Rattle.std.specs.Prelude.{◌≡◌, ◌≤◌};

// The volume of an offer in its quarter of an hour, or of a unit's or a group's line, in kWh.
#[derive(Clone, Copy, Debug, PartialEq, Eq, PartialOrd, Ord)]
pub struct Volume {
    pub kwh: u32,
    ghost limited: { kwh ≤ 1000000 },
}

// A volume of a whole settlement period, in kWh.
#[derive(Clone, Copy, Debug, PartialEq, Eq, PartialOrd, Ord)]
pub struct PeriodVolume {
    pub kwh: u32,
    ghost limited: { kwh ≤ 10000000 },
}

// The volume of several lines of a sheet together, in kWh.
#[derive(Clone, Copy, Debug, PartialEq, Eq, PartialOrd, Ord)]
pub struct VolumeSum {
    pub kwh: u32,
}

// The volume of one line alone.
impl From<Volume> for VolumeSum {
    ghost from_gives = { λ volume sum. sum.kwh ≡ volume.kwh };

    fn from(volume: Volume) -> VolumeSum {
        VolumeSum { kwh: volume.kwh }
    }
}
