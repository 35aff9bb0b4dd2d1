// A sheet as it is put on the shelf: nothing of what was there before is left in its unused places.
ghost use Rattle.std.specs.Prelude.{◌≡◌};
ghost use Rattle.sheet.specs.Figures.{figures_of};
ghost use Rattle.sheet.specs.Listed.{listed};
ghost use Rattle.shelf.specs.Packed.{packed, packed_sheet};

use sheet::entries::Entries;
use sheet::lines::{GroupLine, Offer, UnitLine};
use sheet::report::Sheet;

// The same entries, with a filler in each unused place.
fn pack<T: Copy, const N: usize>(entries: &Entries<T, N>, filler: T) -> Entries<T, N>
    ensures { result ≡ packed filler (listed entries.now) }
{
    let used = entries.as_slice();
    let len = used.len();
    let mut items = [filler; N];
    let (front, _) = items.split_at_mut(len);
    front.copy_from_slice(used);
    Entries { items, len }
}

pub fn packed_sheet(sheet: &Sheet) -> Sheet
    ensures { result ≡ packed_sheet (figures_of sheet.now) }
{
    Sheet {
        day_ahead: sheet.day_ahead,
        forced: sheet.forced,
        offers: pack(&sheet.offers, Offer::default()),
        units: pack(&sheet.units, UnitLine::default()),
        groups: pack(&sheet.groups, GroupLine::default()),
    }
}
