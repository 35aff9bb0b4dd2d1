// Changes a history as the sheet of a period is changed.
ghost use Rattle.std.specs.Prelude.{◌≡◌, map};
ghost use Rattle.pricing.specs.Changes.{plain};
ghost use Rattle.price_changes.specs.Changed.{change_answer, change_after};

use crate::counting::{count_entered, count_struck};
use crate::refusal::ChangeRefusal;
use crate::steps::{enter_all, strike_all};
use price_history::history::PriceHistory;
use price_keeping::keeping::PriceKeeping;
use pricing::changes::PriceChanges;

// Strikes the prices of the older sheet, and enters those of the newer one: all of them, or none where
// there would be more prices than the greatest number. A price that is gone is passed over, and a key
// to be entered that has a price is struck first.
pub fn change_prices<K: PriceKeeping>(
    history: &mut K,
    changes: &PriceChanges,
) -> Result<(), ChangeRefusal>
    ensures answer { result ≡ change_answer (K.PriceHistory.view history.old) (map plain changes.now.list) }
    ensures after { K.PriceHistory.view history.new ≡ change_after (K.PriceHistory.view history.old) (map plain changes.now.list) }
{
    let list = &changes.list[..];
    let struck = count_struck(history, list);
    let entered = count_entered(list);
    if history.greatest() < history.count() - struck + entered {
        return Err(ChangeRefusal::Full);
    }
    strike_all(history, list);
    enter_all(history, list);
    Ok(())
}
