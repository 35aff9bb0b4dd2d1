// Texts of sheets, made from one that is right.
use sheet_text::faults::Section;
use std::alloc::{AllocError, Global};

const GOOD: [&str; 13] = [
    "PERIOD 1 3 17",
    "DAM 350000 kop/MWh",
    "FORCED 1200 kWh H",
    "OFFERS 2",
    "1 U 7 2000 kWh 400000 kop/MWh -",
    "1 D 4 500 kWh 300000 kop/MWh C",
    "UNITS 2",
    "4 D 500 kWh",
    "7 U 2000 kWh",
    "GROUPS 2",
    "3 + 1500 kWh",
    "5 - 900 kWh",
    "END",
];

// The section of a line of the sheet, or of what is put behind it.
pub(crate) fn section_of(line: u32) -> Section {
    match line {
        0..=3 => Section::Head,
        4..=6 => Section::Offers,
        7..=9 => Section::Units,
        10..=12 => Section::Groups,
        _ => Section::End,
    }
}

// The sheet with another line in the place of one.
pub(crate) fn with_line(heap: Global, number: u32, line: &str) -> Result<String, AllocError> {
    let mut text = String::new(heap);
    for (index, good) in GOOD.iter().enumerate() {
        let replaced = index + 1 == number as usize;
        text.push_str(if replaced { line } else { *good })?;
        text.push_str("\n")?;
    }
    Ok(text)
}

// The first lines of the sheet, with what is put behind them.
pub(crate) fn front(heap: Global, count: u32, behind: &str) -> Result<String, AllocError> {
    let mut text = String::new(heap);
    for good in GOOD.iter().take(count as usize) {
        text.push_str(*good)?;
        text.push_str("\n")?;
    }
    text.push_str(behind)?;
    Ok(text)
}

// The first lines of the sheet, the last of them without its line end.
pub(crate) fn cut_short(heap: Global, count: u32) -> Result<String, AllocError> {
    let mut text = front(heap, count, "")?;
    text.pop();
    Ok(text)
}

// A sheet with as many entries as there may be, and its last line.
pub(crate) fn full(heap: Global, last: &str) -> Result<String, AllocError> {
    let head = "PERIOD 2 31 24\nDAM 0 kop/MWh\nFORCED 0 kWh H\nOFFERS 24\n";
    let mut text = String::from_str(heap, head)?;
    for _ in 0..24 {
        text.push_str("4 D 999 1 kWh -1 kop/MWh C\n")?;
    }
    text.push_str("UNITS 16\n")?;
    for unit in 10..26 {
        writeln!(text, "{unit} U 0 kWh")?;
    }
    text.push_str("GROUPS 16\n")?;
    for party in 49..65 {
        writeln!(text, "{party} + 0 kWh")?;
    }
    text.push_str(last)?;
    Ok(text)
}
