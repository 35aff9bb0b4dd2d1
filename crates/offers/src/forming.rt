// The prices that a sheet's offers form.
ghost use Rattle.std.specs.Prelude.{◌≡◌};
ghost use Rattle.sheet.specs.Listed.{listed};
ghost use Rattle.offers.specs.Volumes.{picks};
ghost use Rattle.offers.specs.Forming.{unconstrained, outer, outermost, forming, formed};

use crate::selection::Selection;
use crate::span::{Span, State};
use crate::states::zone_state;
use measures::price::Price;
use sheet::lines::{Direction, Offer};
use sheet::report::Sheet;

// The outer of two prices: the higher one up, the lower one down.
fn outer(direction: Direction, best: Price, price: Price) -> Price
    ensures { result ≡ outer direction best price }
{
    match direction {
        Direction::Up => best.max(price),
        Direction::Down => best.min(price),
    }
}

impl Selection {
    fn is_unconstrained(self, offers: &[Offer]) -> bool
        ensures { result ≡ unconstrained (picks self.span self.direction) offers.now }
    {
        offers
            .iter()
            .any(|offer| self.picks(offer) && !offer.constrained)
    }

    fn outermost_price(self, offers: &[Offer]) -> Option<Price>
        ensures { result ≡ outermost self.direction (picks self.span self.direction) offers.now }
    {
        offers
            .iter()
            .filter(|offer| self.picks(offer))
            .map(|offer| offer.price)
            .reduce(|best, price| outer(self.direction, best, price))
    }

    fn forming_price(self, offers: &[Offer]) -> Option<Price>
        ensures { result ≡ forming self.span self.direction offers.now }
    {
        if self.is_unconstrained(offers) {
            self.outermost_price(offers)
        } else {
            None
        }
    }
}

// The price that forms in a quarter or over the whole period, if one does.
pub fn formed_price(sheet: &Sheet, span: Span, direction: Direction) -> Option<Price>
    ensures { result ≡ formed span direction sheet.now.forced.kwh (listed sheet.now.offers) }
{
    match span {
        Span::Quarter(_) if zone_state(sheet, span) == State::Balanced => None,
        _ => Selection { span, direction }.forming_price(sheet.offers.as_slice()),
    }
}
