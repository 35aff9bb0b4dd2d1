// What holds of any two histories.
ghost use Rattle.std.specs.Prelude.{◌≡◌};

use measures::price::Price;
use price_history::history::PriceHistory;
use price_history::key::PriceKey;
use price_history::mean::mean_before;

// The mean of each: one mean, where the histories show the same.
pub fn equal_views_have_equal_means<K: PriceHistory, L: PriceHistory>(
    one: &K,
    other: &L,
    key: PriceKey,
) -> (Option<Price>, Option<Price>)
    ensures { K.PriceHistory.view one.now ≡ L.PriceHistory.view other.now → result.0 ≡ result.1 }
{
    (mean_before(one, key), mean_before(other, key))
}
