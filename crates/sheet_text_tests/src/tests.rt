// Texts that are read, and texts that are refused where they are wrong.
use crate::texts::{cut_short, front, full, section_of, with_line};
use sheet::lines::{Direction, Position};
use sheet_text::faults::FaultKind::{Keyword, Layout, Number, Order, Unit};
use sheet_text::faults::Section::{End, Groups, Head, Offers, Units};
use sheet_text::faults::{FaultKind, LineFault, Section, SheetFault};
use sheet_text::reading::read;
use std::process::Abort;
use std::test::Fail;

// A line in the place of the right one, and the fault there.
struct Wrong(u32, &'static str, FaultKind, u32);

const WRONG: [Wrong; 112] = [
    Wrong(1, "", Layout, 0),
    Wrong(1, "PERIOD 1 3", Layout, 0),
    Wrong(1, "PERIOD 1 3 17 2", Layout, 0),
    Wrong(1, "PERIOD 1 3 17 ", Layout, 0),
    Wrong(1, " PERIOD 1 3 17", Layout, 0),
    Wrong(1, "PERIOD  1 3 17", Layout, 0),
    Wrong(1, "PERIOD\t1 3 17", Layout, 0),
    Wrong(1, "Period 1 3 17", Keyword, 1),
    Wrong(1, "PERIODS 1 3 17", Keyword, 1),
    Wrong(1, "PERIOD 0 3 17", Number, 2),
    Wrong(1, "PERIOD 3 3 17", Number, 2),
    Wrong(1, "PERIOD 01 3 17", Number, 2),
    Wrong(1, "PERIOD  3 17", Number, 2),
    Wrong(1, "PERIOD 1 0 17", Number, 3),
    Wrong(1, "PERIOD 1 32 17", Number, 3),
    Wrong(1, "PERIOD 1 -3 17", Number, 3),
    Wrong(1, "PERIOD 1 3 0", Number, 4),
    Wrong(1, "PERIOD 1 3 25", Number, 4),
    Wrong(1, "PERIOD 1 3 17\r", Number, 4),
    Wrong(1, "PERIOD 1 3 1\t7", Number, 4),
    Wrong(1, "PERIOD 1 3 18446744073709551633", Number, 4),
    Wrong(1, "PERIOD 1 3 4294967313", Number, 4),
    Wrong(2, "DAM 350000", Layout, 0),
    Wrong(2, "DAM 350000 kop/MWh 1", Layout, 0),
    Wrong(2, "dam 350000 kop/MWh", Keyword, 1),
    Wrong(2, "DAMS 350000 kop/MWh", Keyword, 1),
    Wrong(2, "DAM 10000001 kop/MWh", Number, 2),
    Wrong(2, "DAM -10000001 kop/MWh", Number, 2),
    Wrong(2, "DAM -0 kop/MWh", Number, 2),
    Wrong(2, "DAM +5 kop/MWh", Number, 2),
    Wrong(2, "DAM - kop/MWh", Number, 2),
    Wrong(2, "DAM --5 kop/MWh", Number, 2),
    Wrong(2, "DAM -05 kop/MWh", Number, 2),
    Wrong(2, "DAM 00 kop/MWh", Number, 2),
    Wrong(2, "DAM 5.0 kop/MWh", Number, 2),
    Wrong(
        2,
        "DAM 99999999999999999999999999999999999999 kop/MWh",
        Number,
        2,
    ),
    Wrong(2, "DAM 350000 kop", Unit, 3),
    Wrong(2, "DAM 350000 kop/mwh", Unit, 3),
    Wrong(3, "FORCED 1200 kWh", Layout, 0),
    Wrong(3, "FORCE 1200 kWh H", Keyword, 1),
    Wrong(3, "FORCED 10000001 kWh H", Number, 2),
    Wrong(3, "FORCED -1 kWh H", Number, 2),
    Wrong(3, "FORCED 1200 MWh H", Unit, 3),
    Wrong(3, "FORCED 1200 kWh Q", Unit, 4),
    Wrong(3, "FORCED 1200 kWh h", Unit, 4),
    Wrong(4, "OFFERS", Layout, 0),
    Wrong(4, "OFFERS 2 2", Layout, 0),
    Wrong(4, "OFFER 2", Keyword, 1),
    Wrong(4, "UNITS 2", Keyword, 1),
    Wrong(4, "OFFERS 25", Number, 2),
    Wrong(4, "OFFERS 02", Number, 2),
    Wrong(4, "OFFERS -1", Number, 2),
    Wrong(4, "OFFERS x", Number, 2),
    Wrong(5, "1 U 7 2000 kWh 400000 kop/MWh", Layout, 0),
    Wrong(5, "1 U 7 2000 kWh 400000 kop/MWh - -", Layout, 0),
    Wrong(5, "0 U 7 2000 kWh 400000 kop/MWh -", Number, 1),
    Wrong(5, "5 U 7 2000 kWh 400000 kop/MWh -", Number, 1),
    Wrong(5, "1 u 7 2000 kWh 400000 kop/MWh -", Layout, 2),
    Wrong(5, "1 UD 7 2000 kWh 400000 kop/MWh -", Layout, 2),
    Wrong(5, "1  7 2000 kWh 400000 kop/MWh -", Layout, 2),
    Wrong(5, "1 U 0 2000 kWh 400000 kop/MWh -", Number, 3),
    Wrong(5, "1 U 1000 2000 kWh 400000 kop/MWh -", Number, 3),
    Wrong(5, "1 U 7 0 kWh 400000 kop/MWh -", Number, 4),
    Wrong(5, "1 U 7 1000001 kWh 400000 kop/MWh -", Number, 4),
    Wrong(5, "1 U 7 2000 MWh 400000 kop/MWh -", Unit, 5),
    Wrong(5, "1 U 7 2000 kWh 10000001 kop/MWh -", Number, 6),
    Wrong(5, "1 U 7 2000 kWh -10000001 kop/MWh -", Number, 6),
    Wrong(5, "1 U 7 2000 kWh -0 kop/MWh -", Number, 6),
    Wrong(5, "1 U 7 2000 kWh 400000 kop/kWh -", Unit, 7),
    Wrong(5, "1 U 7 2000 kWh 400000 kop/MWh c", Layout, 8),
    Wrong(5, "1 U 7 2000 kWh 400000 kop/MWh +", Layout, 8),
    Wrong(5, "1 U 7 2000 kWh 400000 kop/MWh ", Layout, 8),
    Wrong(5, "5 X 0 0 MWh -0 kop x", Number, 1),
    Wrong(6, "1 X 0 0 MWh -0 kop x", Layout, 2),
    Wrong(6, "UNITS 2", Layout, 0),
    Wrong(7, "UNITS", Layout, 0),
    Wrong(7, "OFFERS 2", Keyword, 1),
    Wrong(7, "UNITS 17", Number, 2),
    Wrong(7, "UNITS 2\r", Number, 2),
    Wrong(8, "4 D 500", Layout, 0),
    Wrong(8, "4 D 500 kWh H", Layout, 0),
    Wrong(8, "0 D 500 kWh", Number, 1),
    Wrong(8, "1000 D 500 kWh", Number, 1),
    Wrong(8, "4 + 500 kWh", Layout, 2),
    Wrong(8, "4 D 1000001 kWh", Number, 3),
    Wrong(8, "4 D -5 kWh", Number, 3),
    Wrong(8, "4 D 500 kwh", Unit, 4),
    Wrong(9, "4 U 2000 kWh", Order, 1),
    Wrong(9, "3 U 2000 kWh", Order, 1),
    Wrong(9, "3 U 2000 MWh", Unit, 4),
    Wrong(10, "GROUPS", Layout, 0),
    Wrong(10, "GROUP 2", Keyword, 1),
    Wrong(10, "GROUPS 17", Number, 2),
    Wrong(11, "3 + 1500", Layout, 0),
    Wrong(11, "0 + 1500 kWh", Number, 1),
    Wrong(11, "65 + 1500 kWh", Number, 1),
    Wrong(11, "3 U 1500 kWh", Layout, 2),
    Wrong(11, "3 +- 1500 kWh", Layout, 2),
    Wrong(11, "3 + 1000001 kWh", Number, 3),
    Wrong(11, "3 - 0 kWh", Number, 3),
    Wrong(11, "3 + 007 kWh", Number, 3),
    Wrong(11, "3 + 1500 kW", Unit, 4),
    Wrong(12, "3 - 900 kWh", Order, 1),
    Wrong(12, "2 - 900 kWh", Order, 1),
    Wrong(12, "2 - 0 kWh", Number, 3),
    Wrong(12, "END", Layout, 0),
    Wrong(13, "END ", Layout, 0),
    Wrong(13, "END 1", Layout, 0),
    Wrong(13, "", Keyword, 1),
    Wrong(13, "end", Keyword, 1),
    Wrong(13, "END\r", Keyword, 1),
    Wrong(13, "6 + 1 kWh", Layout, 0),
];

// A line that may stand in the place of the right one, at a limit.
struct Right(u32, &'static str);

const RIGHT: [Right; 24] = [
    Right(1, "PERIOD 1 1 1"),
    Right(1, "PERIOD 2 31 24"),
    Right(2, "DAM 10000000 kop/MWh"),
    Right(2, "DAM -10000000 kop/MWh"),
    Right(2, "DAM 0 kop/MWh"),
    Right(2, "DAM -1 kop/MWh"),
    Right(3, "FORCED 0 kWh H"),
    Right(3, "FORCED 10000000 kWh H"),
    Right(5, "1 U 1 1 kWh -10000000 kop/MWh C"),
    Right(5, "4 D 999 1000000 kWh 10000000 kop/MWh -"),
    Right(5, "4 U 4 20 kWh 0 kop/MWh -"),
    Right(6, "1 U 7 2000 kWh 400000 kop/MWh -"),
    Right(8, "1 U 0 kWh"),
    Right(8, "6 D 1000000 kWh"),
    Right(9, "5 U 2000 kWh"),
    Right(9, "999 D 1000000 kWh"),
    Right(11, "1 + 0 kWh"),
    Right(11, "1 - 1 kWh"),
    Right(11, "4 + 1000000 kWh"),
    Right(11, "4 - 1000000 kWh"),
    Right(12, "4 + 0 kWh"),
    Right(12, "4 - 1 kWh"),
    Right(12, "64 + 1000000 kWh"),
    Right(12, "64 - 1000000 kWh"),
];

// The first lines of the sheet with what is put behind them, and the fault there.
struct Behind(u32, &'static str, FaultKind, u32, u32, Section);

const BEHIND: [Behind; 14] = [
    Behind(0, "\n", Layout, 1, 0, Head),
    Behind(0, "\0", Layout, 1, 0, Head),
    Behind(0, "END\n", Layout, 1, 0, Head),
    Behind(1, "\n", Layout, 2, 0, Head),
    Behind(
        3,
        "OFFERS 1\n1 U 7 2 kWh 4 kop/MWh -\n1 U 7 2 kWh 4 kop/MWh -\n",
        Layout,
        6,
        0,
        Units,
    ),
    Behind(
        3,
        "OFFERS 2\n1 U 7 2 kWh 4 kop/MWh -\nUNITS 0\n",
        Layout,
        6,
        0,
        Offers,
    ),
    Behind(3, "OFFERS 0\nGROUPS 0\n", Keyword, 5, 1, Units),
    Behind(
        6,
        "UNITS 1\n4 D 500 kWh\n7 U 2000 kWh\n",
        Layout,
        9,
        0,
        Groups,
    ),
    Behind(6, "UNITS 0\nUNITS 0\n", Keyword, 8, 1, Groups),
    Behind(9, "GROUPS 1\n3 + 1 kWh\n5 + 1 kWh\n", Layout, 12, 0, End),
    Behind(9, "GROUPS 0\nEN\n", Keyword, 11, 1, End),
    Behind(13, "\n", Layout, 14, 0, End),
    Behind(13, " ", Layout, 14, 0, End),
    Behind(13, "END\n", Layout, 14, 0, End),
];

fn fault(section: Section, kind: FaultKind, line: u32, field: u32) -> SheetFault {
    SheetFault {
        section,
        fault: LineFault { kind, line, field },
    }
}

fn refuses(rt: &impl Abort, text: &str, fault: SheetFault) {
    assert_eq!(rt; read(text.as_bytes()).err(), Some(fault), "{text}");
}

#[test]
fn kinds_have_numbers_and_sections_words(rt: HostRuntime) {
    for (kind, number) in [
        (Layout, 1),
        (Number, 2),
        (Unit, 3),
        (Keyword, 4),
        (Order, 5),
    ] {
        assert_eq!(rt; kind.number(), number);
    }
    for (section, word) in [
        (Head, "HEAD"),
        (Offers, "OFFERS"),
        (Units, "UNITS"),
        (Groups, "GROUPS"),
        (End, "END"),
    ] {
        assert_eq!(rt; section.word(), word);
    }
}

#[test]
fn wrong_lines_are_refused(rt: HostRuntime) -> Result<(), Fail> {
    for &Wrong(line, wrong, kind, field) in &WRONG {
        let text = with_line(rt.alloc(), line, wrong)?;
        refuses(
            &rt,
            text.as_str(),
            fault(section_of(line), kind, line, field),
        );
    }
    Ok(())
}

#[test]
fn limits_are_read(rt: HostRuntime) -> Result<(), Fail> {
    for &Right(line, right) in &RIGHT {
        let text = with_line(rt.alloc(), line, right)?;
        assert!(rt; read(text.as_bytes()).is_ok(), "{right}");
    }
    Ok(())
}

#[test]
fn wrong_texts_are_refused(rt: HostRuntime) -> Result<(), Fail> {
    for &Behind(count, behind, kind, line, field, section) in &BEHIND {
        let text = front(rt.alloc(), count, behind)?;
        refuses(&rt, text.as_str(), fault(section, kind, line, field));
    }
    Ok(())
}

#[test]
fn missing_lines_are_refused(rt: HostRuntime) -> Result<(), Fail> {
    for line in 1..14 {
        let missing = fault(section_of(line), Layout, line, 0);
        let text = front(rt.alloc(), line - 1, "")?;
        refuses(&rt, text.as_str(), missing);
        let text = cut_short(rt.alloc(), line)?;
        refuses(&rt, text.as_str(), missing);
    }
    Ok(())
}

#[test]
fn a_full_sheet_is_read(rt: HostRuntime) -> Result<(), Fail> {
    let text = full(rt.alloc(), "END\n")?;
    let report = read(text.as_bytes()).map_err(|_| Fail::new("a full sheet is refused"))?;
    assert_eq!(rt; report.sheet.offers.as_slice().len(), 24);
    assert_eq!(rt; report.sheet.units.as_slice().len(), 16);
    assert_eq!(rt; report.sheet.groups.as_slice().len(), 16);
    let text = full(rt.alloc(), "65 + 0 kWh\n")?;
    refuses(&rt, text.as_str(), fault(End, Layout, 63, 0));
    let text = full(rt.alloc(), "END\n\n")?;
    refuses(&rt, text.as_str(), fault(End, Layout, 64, 0));
    Ok(())
}

#[test]
fn the_figures_are_read(rt: HostRuntime) -> Result<(), Fail> {
    let text = front(rt.alloc(), 13, "")?;
    let report = read(text.as_bytes()).map_err(|_| Fail::new("the sheet is refused"))?;
    assert_eq!(rt; report.place.zone, 1);
    assert_eq!(rt; report.place.day, 3);
    assert_eq!(rt; report.place.period, 17);
    assert_eq!(rt; report.sheet.day_ahead.kop, 350_000);
    assert_eq!(rt; report.sheet.forced.kwh, 1200);
    assert_eq!(rt; report.sheet.offers.as_slice().len(), 2);
    assert_eq!(rt; report.sheet.units.as_slice().len(), 2);
    assert_eq!(rt; report.sheet.groups.as_slice().len(), 2);
    Ok(())
}

#[test]
fn the_entries_are_read(rt: HostRuntime) -> Result<(), Fail> {
    let text = front(rt.alloc(), 13, "")?;
    let report = read(text.as_bytes()).map_err(|_| Fail::new("the sheet is refused"))?;
    let [first, second] = report.sheet.offers.as_slice() else {
        return Err(Fail::new("there are not two offers"));
    };
    assert_eq!(rt;
        (first.quarter, first.unit, first.volume.kwh, first.price.kop),
        (1, 7, 2000, 400_000)
    );
    assert!(rt; first.direction == Direction::Up && !first.constrained);
    assert_eq!(rt;
        (
            second.quarter,
            second.unit,
            second.volume.kwh,
            second.price.kop,
        ),
        (1, 4, 500, 300_000)
    );
    assert!(rt; second.direction == Direction::Down && second.constrained);
    let [first, second] = report.sheet.units.as_slice() else {
        return Err(Fail::new("there are not two units"));
    };
    assert_eq!(rt; (first.unit, first.energy.kwh), (4, 500));
    assert!(rt; first.direction == Direction::Down);
    assert_eq!(rt; (second.unit, second.energy.kwh), (7, 2000));
    assert!(rt; second.direction == Direction::Up);
    let [first, second] = report.sheet.groups.as_slice() else {
        return Err(Fail::new("there are not two groups"));
    };
    assert_eq!(rt; (first.party, first.imbalance.kwh), (3, 1500));
    assert!(rt; first.position == Position::Surplus);
    assert_eq!(rt; (second.party, second.imbalance.kwh), (5, 900));
    assert!(rt; second.position == Position::Shortage);
    Ok(())
}
