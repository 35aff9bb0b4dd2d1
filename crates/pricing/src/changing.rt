// What changes in a history when the sheet of a period is changed.
ghost use Rattle.std.specs.Prelude.{◌≡◌, map};
ghost use Rattle.sheet.specs.Figures.{figures_lent};
ghost use Rattle.pricing.specs.Kinds.{span_of, direction_of};
ghost use Rattle.pricing.specs.Changes.{plain, change_at, changes_at};

use crate::change::PriceChange;
use crate::changes::PriceChanges;
use crate::kind::{KINDS, PriceKind};
use sheet::place::Place;
use sheet::report::Sheet;

fn change_at(place: Place, old: Option<&Sheet>, new: Option<&Sheet>, kind: PriceKind) -> PriceChange
    ensures { plain result ≡ change_at place.zone place.day place.period (figures_lent old.entry) (figures_lent new.entry) (span_of kind) (direction_of kind) }
{
    PriceChange {
        key: kind.key(place),
        old: old.and_then(|sheet| kind.formed_on(sheet)),
        new: new.and_then(|sheet| kind.formed_on(sheet)),
    }
}

// The prices that an older and a newer sheet form, of the four quarters and of the period, up and down.
// A substitute is never among them.
pub fn price_changes(place: Place, old: Option<&Sheet>, new: Option<&Sheet>) -> PriceChanges
    ensures { map plain result.list ≡ changes_at place.zone place.day place.period (figures_lent old.entry) (figures_lent new.entry) }
{
    PriceChanges {
        list: KINDS.map(|kind| change_at(place, old, new, kind)),
    }
}
