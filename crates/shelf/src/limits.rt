// Whether the figures of a row are within their limits.
ghost use Rattle.std.specs.Prelude.{◌≡◌, Bool};
ghost use Rattle.std.specs.List.{list_all};
ghost use Rattle.shelf.specs.Rows.{offer_within, unit_within, group_within, sheet_within};

use sheet::lines::{GroupLine, Offer, UnitLine};
use sheet::report::Sheet;

// A line whose figures have limits.
trait Limited {
    ghost within: { Self → Bool };

    fn is_within_limits(&self) -> bool
        ensures { result ≡ within self.now };
}

impl Limited for Offer {
    ghost within = { offer_within };

    fn is_within_limits(&self) -> bool {
        (1..=4).contains(&self.quarter) && (1..=999).contains(&self.unit) && self.volume.kwh >= 1
    }
}

impl Limited for UnitLine {
    ghost within = { unit_within };

    fn is_within_limits(&self) -> bool {
        (1..=999).contains(&self.unit)
    }
}

impl Limited for GroupLine {
    ghost within = { group_within };

    fn is_within_limits(&self) -> bool {
        (1..=64).contains(&self.party)
    }
}

fn all_within<L: Limited>(lines: &[L]) -> bool
    ensures { result ≡ list_all L.Limited.within lines.now }
{
    lines.iter().all(L::is_within_limits)
}

pub(crate) fn is_sheet(sheet: &Sheet) -> bool
    ensures { result ≡ sheet_within sheet.now }
{
    sheet.offers.len <= 24
        && sheet.units.len <= 16
        && sheet.groups.len <= 16
        && all_within(sheet.offers.as_slice())
        && all_within(sheet.units.as_slice())
        && all_within(sheet.groups.as_slice())
}
