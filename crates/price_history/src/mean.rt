// The price that stands in for one that was not formed.
ghost use Rattle.std.specs.Prelude.{◌≡◌, ◌≤◌, length};
ghost use Rattle.std.specs.Option.{option_map};
ghost use Rattle.measures.specs.Limits.{WithinPrices};
ghost use Rattle.price_history.specs.Keys.{rank_of, rank_on};
ghost use Rattle.price_history.specs.Means.{sum, latest_before, mean_before};

use crate::history::PriceHistory;
use crate::key::PriceKey;
use measures::price::Price;
use measures::rounding::rounded_quotient;

const DAYS_BACK: u16 = 90;

const MOST_PRICES: u64 = 30;

// Prices summed up, and how many they are.
#[derive(Clone, Copy)]
struct Gathered {
    total: i64,
    count: u64,
}

// The key of the same series, zone and slot on another day. Each field is written, since `..key` is
// refused for a type that holds its limits.
fn on_day(key: PriceKey, day: u16) -> PriceKey
    requires { (1 ≤ day) × (day ≤ 121) }
    ensures { rank_of result ≡ rank_on key.series key.zone day key.slot }
{
    PriceKey {
        series: key.series,
        zone: key.zone,
        day,
        slot: key.slot,
    }
}

// Goes back from the day before the key's until enough prices are found. Not a chain: what a closure
// reads of any history stays open there.
fn gather_before<H: PriceHistory>(history: &H, key: PriceKey) -> Gathered
    ensures total { result.total ≡ sum (latest_before (H.PriceHistory.view history.now) key.series key.zone key.day key.slot) }
    ensures count { result.count ≡ length (latest_before (H.PriceHistory.view history.now) key.series key.zone key.day key.slot) }
    ensures limited { WithinPrices result.total result.count }
{
    let mut total: i64 = 0;
    let mut count: u64 = 0;
    let first = key.day.saturating_sub(DAYS_BACK).max(1);
    for day in (first..key.day).rev() {
        if count == MOST_PRICES {
            break;
        }
        if let Some(price) = history.price_at(on_day(key, day)) {
            total += price.kop as i64;
            count += 1;
        }
    }
    Gathered { total, count }
}

// The mean of the latest thirty prices shown for the same series, zone and slot on the ninety days
// before the key's day; none where none is shown.
pub fn mean_before<H: PriceHistory>(history: &H, key: PriceKey) -> Option<Price>
    ensures { option_map (λ price. price.kop) result ≡ mean_before (H.PriceHistory.view history.now) key.series key.zone key.day key.slot }
{
    let latest = gather_before(history, key);
    Price::new(rounded_quotient(latest.total, latest.count)?)
}
