// Marginal prices of quarters and limit prices of periods.
ghost use Rattle.std.specs.Prelude.{◌≡◌};
ghost use Rattle.pricing.specs.Cases.{case_of};
ghost use Rattle.pricing.specs.Kinds.{span_of, direction_of};
ghost use Rattle.pricing.specs.Prices.{formed_or_substitute, marginal_price};

use crate::case::Case;
use crate::kind::PriceKind;
use crate::quarter::Quarter;
use measures::price::Price;
use offers::span::{Span, State};
use offers::states::zone_state;
use price_history::history::PriceHistory;
use price_history::mean::mean_before;
use sheet::lines::Direction;

impl<'a, H: PriceHistory> Case<'a, H> {
    // The price that forms, or else its substitute.
    pub(crate) fn price(&self, kind: PriceKind) -> Price
        ensures { result.kop ≡ formed_or_substitute (span_of kind) (direction_of kind) (case_of H.PriceHistory.view self.now) }
    {
        let key = kind.key(self.place);
        kind.formed_on(self.sheet)
            .or_else(|| mean_before(self.history, key))
            .unwrap_or(self.sheet.day_ahead)
    }

    pub(crate) fn marginal_price(&self, quarter: Quarter, direction: Direction) -> Price
        ensures { result.kop ≡ marginal_price direction (case_of H.PriceHistory.view self.now) quarter.number }
    {
        match zone_state(self.sheet, Span::Quarter(quarter.number)) {
            State::Balanced => self.sheet.day_ahead,
            State::Deficit | State::Surplus => self.price(PriceKind::Marginal(quarter, direction)),
        }
    }
}
