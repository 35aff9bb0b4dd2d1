// Numbers taken as measures, where they are within the limits.
ghost use Rattle.std.specs.Prelude.{◌≡◌};
ghost use Rattle.measures.specs.Limits.{volume_of, period_volume_of, price_of, no_volume, no_period_volume, zero_price};

use crate::price::Price;
use crate::volume::{PeriodVolume, Volume};

const MOST_IN_QUARTER: u32 = 1_000_000;

const MOST_IN_PERIOD: u32 = 10_000_000;

const MOST_PRICE: i64 = 10_000_000;

impl Volume {
    pub fn new(kwh: u32) -> Option<Volume>
        ensures { result ≡ volume_of kwh }
    {
        if kwh <= MOST_IN_QUARTER {
            Some(Volume { kwh })
        } else {
            None
        }
    }
}

// Beside a ghost field Default is not derived.
impl Default for Volume {
    ghost is_default = { λ x. x ≡ no_volume };

    fn default() -> Volume {
        Volume { kwh: 0 }
    }
}

impl PeriodVolume {
    pub fn new(kwh: u32) -> Option<PeriodVolume>
        ensures { result ≡ period_volume_of kwh }
    {
        if kwh <= MOST_IN_PERIOD {
            Some(PeriodVolume { kwh })
        } else {
            None
        }
    }
}

// By hand, as for a volume.
impl Default for PeriodVolume {
    ghost is_default = { λ x. x ≡ no_period_volume };

    fn default() -> PeriodVolume {
        PeriodVolume { kwh: 0 }
    }
}

impl Price {
    pub fn new(kop: i64) -> Option<Price>
        ensures { result ≡ price_of kop }
    {
        if (-MOST_PRICE..=MOST_PRICE).contains(&kop) {
            Some(Price { kop: kop as i32 })
        } else {
            None
        }
    }
}

// By hand, as for a volume.
impl Default for Price {
    ghost is_default = { λ x. x ≡ zero_price };

    fn default() -> Price {
        Price { kop: 0 }
    }
}
