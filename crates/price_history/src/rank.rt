// Keys made of their parts, and their order.
ghost use Rattle.std.specs.Prelude.{◌≡◌, ◌<◌};
ghost use Rattle.price_history.specs.Keys.{key_of, rank_of, span};

use crate::key::PriceKey;
use crate::series::Series;

const ZONES: u16 = 2;

const DAYS: u16 = 121;

impl PriceKey {
    // None where a part is out of its limits.
    pub fn new(series: Series, zone: u16, day: u16, slot: u16) -> Option<PriceKey>
        ensures { result ≡ key_of series zone day slot }
    {
        if !(1..=ZONES).contains(&zone) {
            return None;
        }
        if !(1..=DAYS).contains(&day) {
            return None;
        }
        if !(1..=series.slots()).contains(&slot) {
            return None;
        }
        Some(PriceKey {
            series,
            zone,
            day,
            slot,
        })
    }

    // The place of the key in the order by series, zone, day and slot, from 0.
    pub fn rank(self) -> u32
        ensures value { result ≡ rank_of self }
        ensures below { result < span }
    {
        let days = (self.zone as u32 - 1) * DAYS as u32 + (self.day as u32 - 1);
        self.series.first() + days * self.series.slots() as u32 + (self.slot as u32 - 1)
    }
}
