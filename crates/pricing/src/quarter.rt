// Quarters of an hour.
ghost use Rattle.std.specs.Prelude.{◌≤◌};

// A quarter of the settlement period.
#[derive(Clone, Copy)]
pub(crate) struct Quarter {
    pub(crate) number: u16,
    ghost from: { 1 ≤ number },
    ghost to: { number ≤ 4 },
}

pub(crate) const FIRST: Quarter = Quarter { number: 1 };

pub(crate) const SECOND: Quarter = Quarter { number: 2 };

pub(crate) const THIRD: Quarter = Quarter { number: 3 };

pub(crate) const FOURTH: Quarter = Quarter { number: 4 };
