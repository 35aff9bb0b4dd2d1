// A sheet.
use crate::entries::Entries;
use crate::lines::{GroupLine, Offer, UnitLine};
use measures::price::Price;
use measures::volume::PeriodVolume;

// What a zone reports for one settlement period. Plain data: the numbers of quarters, units and
// parties and the counts of the lists may be beyond their limits.
#[derive(Clone, Copy)]
pub struct Sheet {
    // the day-ahead price of the period
    pub day_ahead: Price,
    // the forced reduction of the whole period
    pub forced: PeriodVolume,
    pub offers: Entries<Offer, 24>,
    pub units: Entries<UnitLine, 16>,
    pub groups: Entries<GroupLine, 16>,
}
