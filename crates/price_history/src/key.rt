// Where a formed price belongs.
ghost use Rattle.std.specs.Prelude.{◌≤◌};
ghost use Rattle.price_history.specs.Slots.{slots_of};

use crate::series::Series;

// Days 1 to 90 are those before the month, and 90 + m is day m of the month. The slot is the settlement
// period t, and for marginal prices 4(t - 1) + q in quarter q of it.
#[derive(Clone, Copy, Debug, PartialEq, Eq, PartialOrd, Ord)]
pub struct PriceKey {
    pub series: Series,
    pub zone: u16,
    pub day: u16,
    pub slot: u16,
    ghost zone_from: { 1 ≤ zone },
    ghost zone_to: { zone ≤ 2 },
    ghost day_from: { 1 ≤ day },
    ghost day_to: { day ≤ 121 },
    ghost slot_from: { 1 ≤ slot },
    ghost slot_to: { slot ≤ slots_of series },
}
