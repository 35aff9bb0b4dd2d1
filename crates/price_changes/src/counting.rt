// How many prices a change strikes and enters.
ghost use Rattle.std.specs.Prelude.{◌≡◌, map};
ghost use Rattle.pricing.specs.Changes.{plain};
ghost use Rattle.price_changes.specs.Changed.{touched};
ghost use Rattle.price_changes.specs.Counts.{struck, struck_count, entered_count};

use price_history::history::PriceHistory;
use pricing::change::PriceChange;

// Whether the older sheet formed a price, or the newer one forms one.
pub(crate) fn touches(change: &PriceChange) -> bool
    ensures { result ≡ touched (plain change.now) }
{
    change.old.is_some() || change.new.is_some()
}

fn is_struck<H: PriceHistory>(history: &H, change: &PriceChange) -> bool
    ensures { result ≡ struck (H.PriceHistory.view history.now).shown (plain change.now) }
{
    touches(change) && history.price_at(change.key).is_some()
}

// A price that is gone is not counted.
pub(crate) fn count_struck<H: PriceHistory>(history: &H, changes: &[PriceChange]) -> usize
    ensures { result ≡ struck_count (H.PriceHistory.view history.now).shown (map plain changes.now) }
{
    changes
        .iter()
        .filter(|change| is_struck(history, change))
        .count()
}

pub(crate) fn count_entered(changes: &[PriceChange]) -> usize
    ensures { result ≡ entered_count (map plain changes.now) }
{
    changes.iter().filter(|change| change.new.is_some()).count()
}
