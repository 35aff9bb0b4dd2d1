// Strikes and entries, one after another.
ghost use Rattle.std.specs.Prelude.{◌≡◌, map};
ghost use Rattle.pricing.specs.Changes.{plain};
ghost use Rattle.price_changes.specs.Steps.{strikes, enters};

use crate::counting::touches;
use price_history::history::PriceHistory;
use price_keeping::keeping::PriceKeeping;
use pricing::change::PriceChange;

// History and changes come apart: the one is the caller's, the others are what is done to it.

// A price that is gone is passed over.
pub(crate) fn strike_all<K: PriceKeeping>(history: &mut K, changes: &[PriceChange])
    ensures { K.PriceHistory.view history.new ≡ strikes (K.PriceHistory.view history.old) (map plain changes.now) }
{
    for change in changes {
        if touches(change) {
            let _ = history.strike(change.key);
        }
    }
}

pub(crate) fn enter_all<K: PriceKeeping>(history: &mut K, changes: &[PriceChange])
    ensures { K.PriceHistory.view history.new ≡ enters (K.PriceHistory.view history.old) (map plain changes.now) }
{
    for change in changes {
        if let Some(price) = change.new {
            let _ = history.enter(change.key, price);
        }
    }
}
