// The mean in a history that is kept.
ghost use Rattle.std.specs.Prelude.{◌≡◌};
ghost use Rattle.std.specs.Option.{option_map};
ghost use Rattle.price_history.specs.Means.{mean_before};

use crate::keeping::PriceKeeping;
use measures::price::Price;
use price_history::key::PriceKey;
use price_history::mean::mean_before;

// The same mean, of a history that is kept: it stands here to show that what is kept can be read.
pub fn kept_mean<K: PriceKeeping>(history: &K, key: PriceKey) -> Option<Price>
    ensures { option_map (λ price. price.kop) result ≡ mean_before (K.PriceHistory.view history.now) key.series key.zone key.day key.slot }
{
    mean_before(history, key)
}
