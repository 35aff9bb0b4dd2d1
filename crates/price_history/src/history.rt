// What can be read of a history of formed prices.
ghost use Rattle.std.specs.Prelude.{◌≡◌, ◌≤◌};
ghost use Rattle.price_history.specs.Keys.{rank_of, span};
ghost use Rattle.price_history.specs.Views.{View, tallied};

use crate::key::PriceKey;
use measures::price::Price;

pub trait PriceHistory {
    ghost view: { Self → View };

    // No more prices are shown than the greatest number of entries.
    ghost within: { (h : Self) → tallied (view h).shown span ≤ (view h).limit };

    fn price_at(&self, key: PriceKey) -> Option<Price>
        ensures { result ≡ (view self.now).shown (rank_of key) };

    // How many prices are shown.
    fn count(&self) -> usize
        ensures { result ≡ tallied (view self.now).shown span };

    // The greatest number of entries.
    fn greatest(&self) -> usize
        ensures { result ≡ (view self.now).limit };
}
