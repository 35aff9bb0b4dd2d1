// Where the prices of a period stand in a history.
ghost use Rattle.std.specs.Prelude.{◌≡◌};
ghost use Rattle.pricing.specs.Keys.{series_of, slot_of, history_day};
ghost use Rattle.pricing.specs.Kinds.{span_of, direction_of};

use crate::kind::PriceKind;
use price_history::key::PriceKey;
use price_history::series::Series;
use sheet::lines::Direction;
use sheet::place::Place;

impl PriceKind {
    fn series(self) -> Series
        ensures { result ≡ series_of (span_of self) (direction_of self) }
    {
        match self {
            PriceKind::Marginal(_, Direction::Up) => Series::MarginalUp,
            PriceKind::Marginal(_, Direction::Down) => Series::MarginalDown,
            PriceKind::Limit(Direction::Up) => Series::LimitUp,
            PriceKind::Limit(Direction::Down) => Series::LimitDown,
        }
    }

    fn slot(self, place: Place) -> u16
        ensures { result ≡ slot_of (span_of self) place.period }
    {
        match self {
            PriceKind::Marginal(quarter, _) => 4 * (place.period - 1) + quarter.number,
            PriceKind::Limit(_) => place.period,
        }
    }

    pub(crate) fn key(self, place: Place) -> PriceKey
        ensures series { result.series ≡ series_of (span_of self) (direction_of self) }
        ensures zone { result.zone ≡ place.zone }
        ensures day { result.day ≡ history_day place.day }
        ensures slot { result.slot ≡ slot_of (span_of self) place.period }
    {
        PriceKey {
            series: self.series(),
            zone: place.zone,
            day: 90 + place.day,
            slot: self.slot(place),
        }
    }
}
