// Substitute prices of histories with few prices, and with many.
use crate::daily::Daily;
use measures::price::Price;
use price_history::empty::EmptyHistory;
use price_history::history::PriceHistory;
use price_history::key::PriceKey;
use price_history::mean::mean_before;
use price_history::series::Series;

fn nothing_shown() -> Daily {
    Daily {
        prices: [None; 121],
    }
}

fn substitute<H: PriceHistory>(history: &H, day: u16) -> Option<i32> {
    let key = PriceKey::new(Series::MarginalUp, 1, day, 1)?;
    Some(mean_before(history, key)?.kop)
}

#[test]
fn no_price_has_no_mean(rt: HostRuntime) {
    assert_eq!(rt; substitute(&nothing_shown(), 91), None);
}

#[test]
fn a_half_goes_away_from_zero(rt: HostRuntime) {
    let mut history = nothing_shown();
    history.prices[88] = Price::new(-3);
    history.prices[89] = Price::new(-4);
    assert_eq!(rt; substitute(&history, 91), Some(-4));
}

#[test]
fn the_thirty_first_price_is_left_out(rt: HostRuntime) {
    let mut history = Daily {
        prices: [Price::new(100); 121],
    };
    history.prices[59] = Price::new(10_000_000);
    assert_eq!(rt; substitute(&history, 91), Some(100));
    assert_eq!(rt; substitute(&history, 90), Some(333_430));
}

#[test]
fn ninety_days_are_seen(rt: HostRuntime) {
    let mut history = nothing_shown();
    history.prices[9] = Price::new(7);
    assert_eq!(rt; substitute(&history, 100), Some(7));
    assert_eq!(rt; substitute(&history, 101), None);
}

#[test]
fn an_empty_history_has_no_mean(rt: HostRuntime) {
    let history = EmptyHistory;
    assert_eq!(rt; substitute(&history, 91), None);
}
