// A month of 28 days in one zone: what opens, what is refused, and what stays.
use book::book::Book;
use book::refusal::BookRefusal;
use book::stated::{StatedKey, StatedPlace, StatedPrice};
use measures::price::Price;
use ordered_list::entry::Entry;
use price_history::history::PriceHistory;
use price_history::series::Series;
use price_keeping::list::PriceList;
use register::party::Party;
use register::register::Register;
use sheet_text::reading::read;
use shelf::rows::Row;
use std::test::Fail;

// 28 days of 24 periods in one zone.
const PLACES: usize = 672;

const TEXT: &[u8] =
    b"PERIOD 1 1 1\nDAM 100 kop/MWh\nFORCED 0 kWh H\nOFFERS 1\n1 U 7 10 kWh 900 kop/MWh -\nUNITS 1\n7 U 10 kWh\nGROUPS 0\nEND\n";

const PLACE: StatedPlace = StatedPlace {
    zone: 1,
    day: 1,
    period: 1,
};

fn no_price() -> Entry<Price> {
    Entry {
        rank: 0,
        value: Price { kop: 0 },
    }
}

fn no_unit() -> Entry<Party> {
    Entry {
        rank: 0,
        value: Party { number: 1 },
    }
}

#[test]
fn opening_refuses_what_is_no_month(rt: HostRuntime) -> Result<(), Fail> {
    let mut shelf: Vec<Row> = vec![in rt.alloc(); None; PLACES]?;
    let mut memory = [no_price(); 1];
    let history = PriceList::over(&mut memory);
    assert!(rt; Book::open(27, 1, &history, &mut shelf) == Err(BookRefusal::BookSize));
    assert!(rt; Book::open(32, 1, &history, &mut shelf) == Err(BookRefusal::BookSize));
    assert!(rt; Book::open(28, 0, &history, &mut shelf) == Err(BookRefusal::BookSize));
    assert!(rt; Book::open(28, 3, &history, &mut shelf) == Err(BookRefusal::BookSize));
    assert!(rt; Book::open(29, 1, &history, &mut shelf) == Err(BookRefusal::ShelfShort));
    assert!(rt; Book::open(28, 1, &history, &mut shelf).is_ok());
    Ok(())
}

#[test]
fn a_history_with_a_price_is_not_opened(rt: HostRuntime) -> Result<(), Fail> {
    let mut shelf: Vec<Row> = vec![in rt.alloc(); None; PLACES]?;
    let mut memory = [no_price(); 2];
    let mut history = PriceList::over(&mut memory);
    let mut book = Book::open(28, 1, &history, &mut shelf).map_err(|_| Fail::new("not opened"))?;
    let key = StatedKey {
        series: Series::LimitUp,
        zone: 2,
        day: 90,
        slot: 24,
    };
    let late = StatedKey { day: 91, ..key };
    let price = StatedPrice { kop: 5 };
    let beyond = StatedPrice { kop: 10_000_001 };
    assert!(rt; book.enter_past_price(&mut history, late, price) == Err(BookRefusal::BeyondLimits));
    assert!(rt; book.enter_past_price(&mut history, key, beyond) == Err(BookRefusal::BeyondLimits));
    assert!(rt; book.enter_past_price(&mut history, key, price).is_ok());
    assert!(rt; book.enter_past_price(&mut history, key, price) == Err(BookRefusal::PriceEntered));
    assert_eq!(rt; history.count(), 1);
    assert!(rt; Book::open(28, 1, &history, &mut shelf) == Err(BookRefusal::HistoryNotEmpty));
    Ok(())
}

#[test]
fn a_sheet_is_filed_replaced_and_withdrawn(rt: HostRuntime) -> Result<(), Fail> {
    let mut shelf: Vec<Row> = vec![in rt.alloc(); None; PLACES]?;
    let mut prices = [no_price(); 2];
    let mut units = [no_unit(); 1];
    let mut history = PriceList::over(&mut prices);
    let mut register = Register::over(&mut units);
    let mut book = Book::open(28, 1, &history, &mut shelf).map_err(|_| Fail::new("not opened"))?;
    assert!(rt;
        book.file(&mut history, &register, &mut shelf, TEXT) == Err(BookRefusal::UnitUnknown)
    );
    assert!(rt; book.register(&mut register, 7, 3).is_ok());
    assert!(rt;
        book.replace(&mut history, &register, &mut shelf, TEXT) == Err(BookRefusal::NoSheet)
    );
    assert!(rt; book.file(&mut history, &register, &mut shelf, TEXT).is_ok());
    assert_eq!(rt; history.count(), 2);
    assert!(rt;
        book.file(&mut history, &register, &mut shelf, TEXT) == Err(BookRefusal::SheetInForce)
    );
    assert!(rt;
        book.replace(&mut history, &register, &mut shelf, TEXT)
            .is_ok()
    );
    assert_eq!(rt; history.count(), 2);
    assert!(rt; book.withdraw(&mut history, &mut shelf, PLACE).is_ok());
    assert_eq!(rt; history.count(), 0);
    assert!(rt; book.withdraw(&mut history, &mut shelf, PLACE) == Err(BookRefusal::NoSheet));
    Ok(())
}

#[test]
fn a_sheet_in_force_is_written(rt: HostRuntime) -> Result<(), Fail> {
    let report = read(TEXT).map_err(|_| Fail::new("the text is refused"))?;
    let mut shelf: Vec<Row> = vec![in rt.alloc(); None; PLACES]?;
    let mut prices = [no_price(); 1];
    let history = PriceList::over(&mut prices);
    let book = Book::open(28, 1, &history, &mut shelf).map_err(|_| Fail::new("not opened"))?;
    let mut out = [b'.'; 200];
    assert!(rt; book.write(&shelf, PLACE, &mut out) == Err(BookRefusal::NoSheet));
    for row in shelf.iter_mut().take(1) {
        *row = Some(report.sheet);
    }
    let mut none = [b'.'; 0];
    assert!(rt; book.write(&shelf, PLACE, &mut none) == Err(BookRefusal::OutputShort));
    let length = book
        .write(&shelf, PLACE, &mut out)
        .map_err(|_| Fail::new("not written"))?;
    assert!(rt; length <= 200);
    assert!(rt; &out[..length] == TEXT);
    Ok(())
}

#[test]
fn a_full_history_refuses_a_sheet(rt: HostRuntime) -> Result<(), Fail> {
    let mut shelf: Vec<Row> = vec![in rt.alloc(); None; PLACES]?;
    let mut prices = [no_price(); 1];
    let mut units = [no_unit(); 1];
    let mut history = PriceList::over(&mut prices);
    let mut register = Register::over(&mut units);
    let mut book = Book::open(28, 1, &history, &mut shelf).map_err(|_| Fail::new("not opened"))?;
    assert!(rt; book.register(&mut register, 7, 3).is_ok());
    assert!(rt;
        book.file(&mut history, &register, &mut shelf, TEXT) == Err(BookRefusal::HistoryFull)
    );
    assert_eq!(rt; history.count(), 0);
    assert!(rt; book.withdraw(&mut history, &mut shelf, PLACE) == Err(BookRefusal::NoSheet));
    let nowhere = StatedPlace { zone: 2, ..PLACE };
    assert!(rt; book.withdraw(&mut history, &mut shelf, nowhere) == Err(BookRefusal::Outside));
    let faulty = book.file(&mut history, &register, &mut shelf, b"PERIOD 1 1 25\n");
    assert!(rt; matches!(&faulty, Err(BookRefusal::Text(_))));
    Ok(())
}

#[test]
fn decades_are_closed_in_their_order(rt: HostRuntime) -> Result<(), Fail> {
    let report = read(TEXT).map_err(|_| Fail::new("the text is refused"))?;
    let mut shelf: Vec<Row> = vec![in rt.alloc(); None; PLACES]?;
    let mut prices = [no_price(); 1];
    let mut history = PriceList::over(&mut prices);
    let mut book = Book::open(28, 1, &history, &mut shelf).map_err(|_| Fail::new("not opened"))?;
    assert!(rt; book.close(&shelf, 2) == Err(BookRefusal::NotNextDecade));
    assert!(rt; book.close(&shelf, 1) == Err(BookRefusal::SheetMissing));
    for row in shelf.iter_mut().take(240) {
        *row = Some(report.sheet);
    }
    assert!(rt; book.close(&shelf, 1).is_ok());
    assert!(rt; book.close(&shelf, 1) == Err(BookRefusal::NotNextDecade));
    assert!(rt; book.withdraw(&mut history, &mut shelf, PLACE) == Err(BookRefusal::DecadeClosed));
    Ok(())
}

#[test]
fn refusals_have_their_numbers(rt: HostRuntime) {
    for (refusal, number) in [
        (BookRefusal::Outside, 6),
        (BookRefusal::UnitUnknown, 7),
        (BookRefusal::DecadeClosed, 8),
        (BookRefusal::SheetInForce, 9),
        (BookRefusal::PriceEntered, 9),
        (BookRefusal::NoSheet, 10),
        (BookRefusal::HistoryFull, 11),
        (BookRefusal::NotNextDecade, 12),
        (BookRefusal::SheetMissing, 13),
        (BookRefusal::BeyondLimits, 14),
        (BookRefusal::ShelfShort, 15),
        (BookRefusal::OutputShort, 15),
        (BookRefusal::BookSize, 16),
        (BookRefusal::HistoryNotEmpty, 17),
    ] {
        assert_eq!(rt; refusal.number(), number);
    }
}
