// Offers of a sheet that are taken together.
ghost use Rattle.std.specs.Prelude.{◌≡◌};
ghost use Rattle.offers.specs.Volumes.{picks};

use crate::span::Span;
use sheet::lines::{Direction, Offer};

// The offers of a quarter or of the whole settlement period, in one direction.
#[derive(Clone, Copy)]
pub(crate) struct Selection {
    pub(crate) span: Span,
    pub(crate) direction: Direction,
}

impl Selection {
    pub(crate) fn picks(self, offer: &Offer) -> bool
        ensures { result ≡ picks self.span self.direction offer.now }
    {
        match self.span {
            Span::Quarter(quarter) => offer.quarter == quarter && offer.direction == self.direction,
            Span::Period => offer.direction == self.direction,
        }
    }
}
