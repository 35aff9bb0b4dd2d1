// What a call names, within its limits or not.
ghost use Rattle.std.specs.Prelude.{◌≡◌};
ghost use Rattle.book.specs.Memory.{stated};

use price_history::series::Series;
use sheet::place::Place;

// A zone, a day and a settlement period.
#[derive(Clone, Copy, Debug, PartialEq, Eq)]
pub struct StatedPlace {
    pub zone: u16,
    pub day: u16,
    pub period: u16,
}

impl From<Place> for StatedPlace {
    ghost from_gives = { λ p r. r ≡ stated p };

    fn from(place: Place) -> StatedPlace {
        StatedPlace {
            zone: place.zone,
            day: place.day,
            period: place.period,
        }
    }
}

// Where a price belongs in a history.
#[derive(Clone, Copy, Debug, PartialEq, Eq)]
pub struct StatedKey {
    pub series: Series,
    pub zone: u16,
    pub day: u16,
    pub slot: u16,
}

// A price, in kopecks per MWh.
#[derive(Clone, Copy, Debug, PartialEq, Eq)]
pub struct StatedPrice {
    pub kop: i32,
}
