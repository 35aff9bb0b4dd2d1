// What can be changed in a history of formed prices.
ghost use Rattle.std.specs.Prelude.{◌≡◌};
ghost use Rattle.price_history.specs.Keys.{rank_of};
ghost use Rattle.price_keeping.specs.Changes.{entry_answer, entered, strike_answer, struck};

use crate::refusal::KeepRefusal;
use measures::price::Price;
use price_history::history::PriceHistory;
use price_history::key::PriceKey;

// Entering and striking touch their own key, and no other; a refusal changes nothing.
pub trait PriceKeeping: PriceHistory {
    fn enter(&mut self, key: PriceKey, price: Price) -> Result<(), KeepRefusal>
        ensures answer { result ≡ entry_answer (Self.PriceHistory.view self.old) (rank_of key) }
        ensures after { Self.PriceHistory.view self.new ≡ entered (Self.PriceHistory.view self.old) (rank_of key) price };

    fn strike(&mut self, key: PriceKey) -> Result<Price, KeepRefusal>
        ensures answer { result ≡ strike_answer (Self.PriceHistory.view self.old) (rank_of key) }
        ensures after { Self.PriceHistory.view self.new ≡ struck (Self.PriceHistory.view self.old) (rank_of key) };
}
