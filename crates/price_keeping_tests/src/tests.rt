// Tables and lists of prices: their refusals, their memory and their means.
use measures::price::Price;
use ordered_list::entry::Entry;
use price_history::empty::EmptyHistory;
use price_history::history::PriceHistory;
use price_history::key::PriceKey;
use price_history::mean::mean_before;
use price_history::series::Series;
use price_keeping::keeping::PriceKeeping;
use price_keeping::laws::equal_views_have_equal_means;
use price_keeping::list::PriceList;
use price_keeping::means::kept_mean;
use price_keeping::refusal::{KeepRefusal, MemoryRefusal};
use price_keeping::table::PriceTable;
use std::process::Abort;
use std::test::Fail;

const PLACES: usize = 58_080;

fn kop_of(price: Option<Price>) -> Option<i32> {
    Some(price?.kop)
}

// The key of a day, for marginal prices up in zone 1 and slot 1.
fn of_day(day: u16) -> Option<PriceKey> {
    PriceKey::new(Series::MarginalUp, 1, day, 1)
}

fn enter<K: PriceKeeping>(history: &mut K, day: u16, kop: i64) -> Option<Result<(), KeepRefusal>> {
    Some(history.enter(of_day(day)?, Price::new(kop)?))
}

// The price that was struck, or the refusal.
fn strike<K: PriceKeeping>(history: &mut K, day: u16) -> Option<Result<i32, KeepRefusal>> {
    Some(history.strike(of_day(day)?).map(|price| price.kop))
}

fn shown<H: PriceHistory>(history: &H, day: u16) -> Option<i32> {
    kop_of(history.price_at(of_day(day)?))
}

// Two prices come and go.
fn is_kept<K: PriceKeeping>(rt: &impl Abort, history: &mut K) {
    assert_eq!(rt;
        (strike(history, 5), history.count()),
        (Some(Err(KeepRefusal::Absent)), 0)
    );
    assert_eq!(rt; KeepRefusal::Absent.number(), 10);
    assert_eq!(rt;
        (enter(history, 5, 700), enter(history, 5, 800)),
        (Some(Ok(())), Some(Err(KeepRefusal::Present)))
    );
    assert_eq!(rt; KeepRefusal::Present.number(), 9);
    assert_eq!(rt;
        (enter(history, 4, 600), history.count()),
        (Some(Ok(())), 2)
    );
    assert_eq!(rt;
        (shown(history, 5), shown(history, 4)),
        (Some(700), Some(600))
    );
    assert_eq!(rt;
        (strike(history, 5), strike(history, 5)),
        (Some(Ok(700)), Some(Err(KeepRefusal::Absent)))
    );
    assert_eq!(rt; (shown(history, 5), shown(history, 4)), (None, Some(600)));
    assert_eq!(rt;
        (enter(history, 5, 900), shown(history, 5)),
        (Some(Ok(())), Some(900))
    );
}

// Two prices fill it.
fn fills_up<K: PriceKeeping>(rt: &impl Abort, history: &mut K) {
    assert_eq!(rt;
        (enter(history, 8, 80), enter(history, 6, 60)),
        (Some(Ok(())), Some(Ok(())))
    );
    assert_eq!(rt; (history.count(), history.greatest()), (2, 2));
    assert_eq!(rt;
        (enter(history, 7, 70), enter(history, 6, 61)),
        (
            Some(Err(KeepRefusal::Full)),
            Some(Err(KeepRefusal::Present))
        )
    );
    assert_eq!(rt; KeepRefusal::Full.number(), 11);
    assert_eq!(rt;
        (strike(history, 8), enter(history, 7, 70)),
        (Some(Ok(80)), Some(Ok(())))
    );
    assert_eq!(rt;
        (shown(history, 6), shown(history, 7), shown(history, 8)),
        (Some(60), Some(70), None)
    );
}

// Every price is refused.
fn has_no_places<K: PriceKeeping>(rt: &impl Abort, history: &mut K) {
    assert_eq!(rt;
        (enter(history, 1, 700), strike(history, 1)),
        (Some(Err(KeepRefusal::Full)), Some(Err(KeepRefusal::Absent)))
    );
    assert_eq!(rt;
        (history.greatest(), history.count(), shown(history, 1)),
        (0, 0, None)
    );
}

fn starts_empty<H: PriceHistory>(rt: &impl Abort, history: &H, places: usize) {
    assert_eq!(rt; (history.count(), history.greatest()), (0, places));
    assert_eq!(rt; (shown(history, 1), shown(history, 2)), (None, None));
}

// The last of the keys comes and goes.
fn keeps_the_last_key<K: PriceKeeping>(rt: &impl Abort, history: &mut K) {
    let last = PriceKey::new(Series::LimitDown, 2, 121, 24).expect(rt, "the last key");
    assert_eq!(rt;
        (
            history.enter(last, old_price()),
            kop_of(history.price_at(last)),
        ),
        (Ok(()), Some(7))
    );
    assert!(rt; history.strike(last).is_ok());
}

// The price of each of the ninety days before the month is the number of the day.
fn ninety_days<K: PriceKeeping>(rt: &impl Abort, history: &mut K) {
    for day in 1..91 {
        assert_eq!(rt; enter(history, day, day as i64), Some(Ok(())));
    }
    let key = of_day(91).expect(rt, "the key of day 91");
    // days 61 to 90: 75.5, a half away from zero
    assert_eq!(rt; kop_of(kept_mean(history, key)), Some(76));
    assert_eq!(rt; strike(history, 90), Some(Ok(90)));
    // days 60 to 89: 74.5
    assert_eq!(rt; kop_of(kept_mean(history, key)), Some(75));
}

fn old_price() -> Price {
    Price { kop: 7 }
}

fn old_entry(rank: u32) -> Entry<Price> {
    Entry {
        rank,
        value: old_price(),
    }
}

#[test]
fn a_list_keeps(rt: HostRuntime) {
    let mut memory = [old_entry(0); 3];
    is_kept(&rt, &mut PriceList::over(&mut memory));
}

#[test]
fn a_table_keeps(rt: HostRuntime) -> Result<(), Fail> {
    let mut memory: Vec<Option<Price>> = vec![in rt.alloc(); None; PLACES]?;
    is_kept(&rt, &mut PriceTable::over(&mut memory));
    Ok(())
}

#[test]
fn a_list_without_places_refuses(rt: HostRuntime) {
    let mut memory = [old_entry(0); 0];
    has_no_places(&rt, &mut PriceList::over(&mut memory));
}

#[test]
fn a_full_list_refuses(rt: HostRuntime) {
    let mut memory = [old_entry(0); 2];
    fills_up(&rt, &mut PriceList::over(&mut memory));
}

#[test]
fn a_list_starts_empty_over_old_entries(rt: HostRuntime) {
    let mut memory = [old_entry(0), old_entry(96)];
    starts_empty(&rt, &PriceList::over(&mut memory), 2);
}

#[test]
fn a_table_over_short_memory_refuses(rt: HostRuntime) -> Result<(), Fail> {
    let mut memory: Vec<Option<Price>> = vec![in rt.alloc(); Some(old_price()); PLACES - 1]?;
    assert_eq!(rt;
        PriceTable::check_memory(&memory),
        Err(MemoryRefusal::Short)
    );
    assert_eq!(rt; MemoryRefusal::Short.number(), 15);
    has_no_places(&rt, &mut PriceTable::over(&mut memory));
    assert!(rt; memory.len() > 0);
    assert_eq!(rt; kop_of(memory[0]), Some(7));
    Ok(())
}

#[test]
fn a_table_starts_empty_and_leaves_the_memory_beyond(rt: HostRuntime) -> Result<(), Fail> {
    let mut memory: Vec<Option<Price>> = vec![in rt.alloc(); Some(old_price()); PLACES + 2]?;
    assert_eq!(rt; PriceTable::check_memory(&memory), Ok(()));
    let mut table = PriceTable::over(&mut memory);
    starts_empty(&rt, &table, PLACES);
    keeps_the_last_key(&rt, &mut table);
    assert!(rt; memory.len() == PLACES + 2);
    let near = (
        kop_of(memory[PLACES - 1]),
        kop_of(memory[PLACES]),
        kop_of(memory[PLACES + 1]),
    );
    assert_eq!(rt; near, (None, Some(7), Some(7)));
    Ok(())
}

#[test]
fn means_of_ninety_days(rt: HostRuntime) -> Result<(), Fail> {
    let mut places: Vec<Option<Price>> = vec![in rt.alloc(); None; PLACES]?;
    let mut entries: Vec<Entry<Price>> = vec![in rt.alloc(); old_entry(0); 90]?;
    let mut table = PriceTable::over(&mut places);
    let mut list = PriceList::over(&mut entries);
    ninety_days(&rt, &mut table);
    ninety_days(&rt, &mut list);
    let key = of_day(91).expect(&rt, "the key of day 91");
    let means = equal_views_have_equal_means(&table, &list, key);
    assert_eq!(rt; (kop_of(means.0), kop_of(means.1)), (Some(75), Some(75)));
    assert_eq!(rt; kop_of(mean_before(&EmptyHistory, key)), None);
    Ok(())
}
