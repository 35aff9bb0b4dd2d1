// One sheet priced over histories that are kept.
use crate::tests::{AT_DAY_AHEAD, SUBSTITUTED, prices_as};
use measures::price::Price;
use ordered_list::entry::Entry;
use price_history::empty::EmptyHistory;
use price_history::history::PriceHistory;
use price_history::key::PriceKey;
use price_history::series::Series;
use price_keeping::keeping::PriceKeeping;
use price_keeping::list::PriceList;
use price_keeping::table::PriceTable;
use priced_text::laws::LONGEST;
use priced_text::pricing_text::price_text;
use std::process::Abort;
use std::test::Fail;

const PLACES: usize = 58_080;

const ONE_SHORT: usize = PLACES - 1;

// What is printed of the sheet after ninety days: the latest thirty prices are 61 to 90 up, and -61 to
// -90 down, with means of 75.5 and -75.5.
const AT_MEANS: &[u8] =
    b"DEFICIT\nIMSP 138 kop/MWh\nUP 138 kop/MWh\nDOWN -76 kop/MWh\nUNITS 1\n7 276000 mkop\nA-A -276000 mkop\nGROUPS 0\nA-B 0 mkop\nEND\n";

fn enter<K: PriceKeeping>(history: &mut K, series: Series, day: u16, kop: i64) -> Option<bool> {
    let key = PriceKey::new(series, 1, day, 1)?;
    Some(history.enter(key, Price::new(kop)?).is_ok())
}

// The marginal price up of each of the ninety days before the month is the number of the day, and the
// limit price down is that below zero. All are entered, or all are refused.
fn ninety_days<K: PriceKeeping>(rt: &impl Abort, history: &mut K, entered: bool) {
    for day in 1..=90 {
        let kop = i64::from(day);
        assert_eq!(rt; enter(history, Series::MarginalUp, day, kop), Some(entered));
        assert_eq!(rt; enter(history, Series::LimitDown, day, -kop), Some(entered));
    }
}

// All of the output, where the sheet is priced.
fn output_over<H: PriceHistory>(history: &H) -> Option<[u8; LONGEST]> {
    let mut out = [b'.'; LONGEST];
    price_text(history, SUBSTITUTED, &mut out).ok()?;
    Some(out)
}

#[test]
fn a_table_and_a_list_price_alike(rt: HostRuntime) -> Result<(), Fail> {
    let mut places: Vec<Option<Price>> = vec![in rt.alloc(); None; PLACES]?;
    let filler = Entry {
        rank: 0,
        value: Price { kop: 0 },
    };
    let mut entries: Vec<Entry<Price>> = vec![in rt.alloc(); filler; 180]?;
    let mut table = PriceTable::over(&mut places);
    let mut list = PriceList::over(&mut entries);
    ninety_days(&rt, &mut table, true);
    ninety_days(&rt, &mut list, true);
    prices_as(&rt, &table, SUBSTITUTED, AT_MEANS)?;
    prices_as(&rt, &list, SUBSTITUTED, AT_MEANS)?;
    let over_table = output_over(&table);
    assert!(rt; over_table == output_over(&list));
    assert!(rt; over_table != output_over(&EmptyHistory));
    Ok(())
}

#[test]
fn a_table_without_places_prices_at_the_day_ahead_price(rt: HostRuntime) -> Result<(), Fail> {
    let mut places: Vec<Option<Price>> = vec![in rt.alloc(); None; ONE_SHORT]?;
    let mut table = PriceTable::over(&mut places);
    ninety_days(&rt, &mut table, false);
    prices_as(&rt, &table, SUBSTITUTED, AT_DAY_AHEAD)?;
    assert!(rt; output_over(&table) == output_over(&EmptyHistory));
    Ok(())
}
