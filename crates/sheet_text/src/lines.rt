// What each line says.
ghost use Rattle.std.specs.Prelude.{◌≡◌, ◌≤◌, IfOk, Ok, Err, MatchResult};
ghost use Rattle.sheet_text.specs.Lines.{fixed, period_line, day_ahead_line, forced_line, count_line, end_line};

use crate::faults::{FaultKind, LineFault};
use crate::values::{period_volume_of, price_of, small_number};
use measures::price::Price;
use measures::volume::PeriodVolume;
use sheet::place::Place;
use text::numbers::number_within;
use text::words::is_word;

const ZONES: u16 = 2;

const MOST_DAYS: u16 = 31;

const PERIODS: u16 = 24;

pub(crate) fn need_word(field: &[u8], word: &[u8], fault: LineFault) -> Result<(), LineFault>
    ensures { result ≡ fixed field.now word.now fault (Ok tt) }
{
    if is_word(field, word) {
        Ok(())
    } else {
        Err(fault)
    }
}

// A line's number and its fields come one by one, as the reader's state was matched with them.

// `PERIOD zone day period`
pub(crate) fn period_line(
    line: u32,
    keyword: &[u8],
    zone: &[u8],
    day: &[u8],
    period: &[u8],
) -> Result<Place, LineFault>
    ensures { MatchResult result
        (λ p. period_line line keyword.now zone.now day.now period.now ≡ Ok (p.zone, p.day, p.period))
        (λ e. period_line line keyword.now zone.now day.now period.now ≡ Err e) }
{
    need_word(keyword, b"PERIOD", FaultKind::Keyword.at(line, 1))?;
    let zone = small_number(zone, 1, ZONES).ok_or(FaultKind::Number.at(line, 2))?;
    let day = small_number(day, 1, MOST_DAYS).ok_or(FaultKind::Number.at(line, 3))?;
    let period = small_number(period, 1, PERIODS).ok_or(FaultKind::Number.at(line, 4))?;
    Ok(Place { zone, day, period })
}

// `DAM price kop/MWh`
pub(crate) fn day_ahead_line(
    line: u32,
    keyword: &[u8],
    price: &[u8],
    unit: &[u8],
) -> Result<Price, LineFault>
    ensures { result ≡ day_ahead_line line keyword.now price.now unit.now }
{
    need_word(keyword, b"DAM", FaultKind::Keyword.at(line, 1))?;
    let price = price_of(price).ok_or(FaultKind::Number.at(line, 2))?;
    need_word(unit, b"kop/MWh", FaultKind::Unit.at(line, 3))?;
    Ok(price)
}

// `FORCED volume kWh H`
pub(crate) fn forced_line(
    line: u32,
    keyword: &[u8],
    volume: &[u8],
    unit: &[u8],
    span: &[u8],
) -> Result<PeriodVolume, LineFault>
    ensures { result ≡ forced_line line keyword.now volume.now unit.now span.now }
{
    need_word(keyword, b"FORCED", FaultKind::Keyword.at(line, 1))?;
    let volume = period_volume_of(volume).ok_or(FaultKind::Number.at(line, 2))?;
    need_word(unit, b"kWh", FaultKind::Unit.at(line, 3))?;
    need_word(span, b"H", FaultKind::Unit.at(line, 4))?;
    Ok(volume)
}

// A section's keyword and the number of its entries.
pub(crate) fn count_line(
    line: u32,
    keyword: &[u8],
    count: &[u8],
    word: &[u8],
    most: u32,
) -> Result<u32, LineFault>
    ensures value { result ≡ count_line word.now most line keyword.now count.now }
    ensures few { IfOk result (λ n. n ≤ most) }
{
    need_word(keyword, word, FaultKind::Keyword.at(line, 1))?;
    number_within(count, 0, most).ok_or(FaultKind::Number.at(line, 2))
}

// `END`
pub(crate) fn end_line(line: u32, keyword: &[u8]) -> Result<(), LineFault>
    ensures { result ≡ end_line line keyword.now }
{
    need_word(keyword, b"END", FaultKind::Keyword.at(line, 1))
}
