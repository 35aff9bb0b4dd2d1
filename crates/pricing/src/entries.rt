// The formed prices that a sheet enters into a history.
ghost use Rattle.std.specs.Prelude.{◌≡◌, map};
ghost use Rattle.sheet.specs.Figures.{figures_of};
ghost use Rattle.pricing.specs.Kinds.{span_of, direction_of};
ghost use Rattle.pricing.specs.Entries.{ranked, formed_at, formed_prices};

use crate::kind::{KINDS, PriceKind};
use measures::price::Price;
use price_history::key::PriceKey;
use sheet::place::Place;
use sheet::report::Sheet;

// A key, and the price that forms there or none.
#[derive(Clone, Copy, Debug, PartialEq, Eq)]
pub struct FormedPrice {
    pub key: PriceKey,
    pub price: Option<Price>,
}

fn formed_at(place: Place, sheet: &Sheet, kind: PriceKind) -> FormedPrice
    ensures { ranked result ≡ formed_at place.zone place.day place.period (figures_of sheet.now) (span_of kind) (direction_of kind) }
{
    FormedPrice {
        key: kind.key(place),
        price: kind.formed_on(sheet),
    }
}

// The prices of the four quarters and of the period, up and down. A substitute is never among them.
pub fn formed_prices_of(place: Place, sheet: &Sheet) -> [FormedPrice; 10]
    ensures { map ranked result ≡ formed_prices place.zone place.day place.period (figures_of sheet.now) }
{
    let by_key = KINDS.map(|kind| formed_at(place, sheet, kind));
    let [u1, u2, u3, u4, d1, d2, d3, d4, up, down] = by_key;
    [u1, d1, u2, d2, u3, d3, u4, d4, up, down]
}
