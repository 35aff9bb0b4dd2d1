// The history that shows no price.
ghost use Rattle.price_history.specs.Views.{empty_view};
ghost use Rattle.price_history.specs.Empty.{empty_within};

use crate::history::PriceHistory;
use crate::key::PriceKey;
use measures::price::Price;

#[derive(Clone, Copy, PartialEq, Eq)]
pub struct EmptyHistory;

impl PriceHistory for EmptyHistory {
    ghost view = { λ _. empty_view };

    ghost within = { λ _. empty_within };

    fn price_at(&self, _key: PriceKey) -> Option<Price> {
        None
    }

    fn count(&self) -> usize {
        0
    }

    fn greatest(&self) -> usize {
        0
    }
}
