// What each field says.
ghost use Rattle.std.specs.Prelude.{◌≡◌, ◌≤◌, IfSome};
ghost use Rattle.text.specs.Numbers.{number, within};
ghost use Rattle.sheet_text.specs.Values.{direction_field, position_field, constraint_field, volume_field, period_volume_field, price_field, imbalance_field};

use measures::price::Price;
use measures::volume::{PeriodVolume, Volume};
use sheet::lines::{Direction, Position};
use text::numbers::{number_within, signed_within};

const MOST_VOLUME: u32 = 1_000_000;

const MOST_PERIOD_VOLUME: u32 = 10_000_000;

const MOST_PRICE: u32 = 10_000_000;

pub(crate) fn small_number(field: &[u8], least: u16, most: u16) -> Option<u16>
    ensures value { result ≡ within least most (number field.now) }
    ensures bounds { IfSome result (λ n. (least ≤ n) × (n ≤ most)) }
{
    let n = number_within(field, u32::from(least), u32::from(most))?;
    Some(n as u16)
}

// What a letter says has types of other crates, for which no `TryFrom` can stand here.
pub(crate) fn direction_of(field: &[u8]) -> Option<Direction>
    ensures { result ≡ direction_field field.now }
{
    match field {
        [b'U'] => Some(Direction::Up),
        [b'D'] => Some(Direction::Down),
        _ => None,
    }
}

pub(crate) fn position_of(field: &[u8]) -> Option<Position>
    ensures { result ≡ position_field field.now }
{
    match field {
        [b'+'] => Some(Position::Surplus),
        [b'-'] => Some(Position::Shortage),
        _ => None,
    }
}

pub(crate) fn constraint_of(field: &[u8]) -> Option<bool>
    ensures { result ≡ constraint_field field.now }
{
    match field {
        [b'C'] => Some(true),
        [b'-'] => Some(false),
        _ => None,
    }
}

// The volume of a quarter or of a line. Each measure is read by a function of its own, which joins its
// type with its limit.
pub(crate) fn volume_of(field: &[u8], least: u32) -> Option<Volume>
    ensures { result ≡ volume_field least field.now }
{
    let kwh = number_within(field, least, MOST_VOLUME)?;
    Volume::new(kwh)
}

pub(crate) fn period_volume_of(field: &[u8]) -> Option<PeriodVolume>
    ensures { result ≡ period_volume_field field.now }
{
    let kwh = number_within(field, 0, MOST_PERIOD_VOLUME)?;
    PeriodVolume::new(kwh)
}

pub(crate) fn price_of(field: &[u8]) -> Option<Price>
    ensures { result ≡ price_field field.now }
{
    let kop = signed_within(field, MOST_PRICE)?;
    Price::new(kop)
}

// No imbalance is a surplus.
pub(crate) fn imbalance_of(field: &[u8], position: Position) -> Option<Volume>
    ensures { result ≡ imbalance_field position field.now }
{
    match position {
        Position::Surplus => volume_of(field, 0),
        Position::Shortage => volume_of(field, 1),
    }
}
