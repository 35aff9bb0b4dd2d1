// Which prices a settlement period has.
ghost use Rattle.std.specs.Prelude.{◌≡◌};
ghost use Rattle.sheet.specs.Listed.{listed};
ghost use Rattle.offers.specs.Forming.{formed};
ghost use Rattle.pricing.specs.Kinds.{span_of, direction_of};

use crate::quarter::{FIRST, FOURTH, Quarter, SECOND, THIRD};
use measures::price::Price;
use offers::forming::formed_price;
use offers::span::Span;
use sheet::lines::Direction;
use sheet::report::Sheet;

// Marginal prices are those of quarters, limit prices those of whole periods.
#[derive(Clone, Copy)]
pub(crate) enum PriceKind {
    Marginal(Quarter, Direction),
    Limit(Direction),
}

// In the order of their keys.
pub(crate) const KINDS: [PriceKind; 10] = [
    PriceKind::Marginal(FIRST, Direction::Up),
    PriceKind::Marginal(SECOND, Direction::Up),
    PriceKind::Marginal(THIRD, Direction::Up),
    PriceKind::Marginal(FOURTH, Direction::Up),
    PriceKind::Marginal(FIRST, Direction::Down),
    PriceKind::Marginal(SECOND, Direction::Down),
    PriceKind::Marginal(THIRD, Direction::Down),
    PriceKind::Marginal(FOURTH, Direction::Down),
    PriceKind::Limit(Direction::Up),
    PriceKind::Limit(Direction::Down),
];

impl PriceKind {
    fn span(self) -> Span
        ensures { result ≡ span_of self }
    {
        match self {
            PriceKind::Marginal(quarter, _) => Span::Quarter(quarter.number),
            PriceKind::Limit(_) => Span::Period,
        }
    }

    fn direction(self) -> Direction
        ensures { result ≡ direction_of self }
    {
        match self {
            PriceKind::Marginal(_, direction) | PriceKind::Limit(direction) => direction,
        }
    }

    pub(crate) fn formed_on(self, sheet: &Sheet) -> Option<Price>
        ensures { result ≡ formed (span_of self) (direction_of self) sheet.now.forced.kwh (listed sheet.now.offers) }
    {
        formed_price(sheet, self.span(), self.direction())
    }
}
