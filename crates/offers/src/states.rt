// The state of the zone.
ghost use Rattle.std.specs.Prelude.{◌≡◌};
ghost use Rattle.sheet.specs.Listed.{listed};
ghost use Rattle.offers.specs.States.{weighed, state_of};

use crate::span::{Span, State};
use crate::volumes::offered_volume;
use sheet::lines::Direction;
use sheet::report::Sheet;
use std::cmp::Ordering;

fn weigh(up: u32, down: u32) -> State
    ensures { result ≡ weighed up down }
{
    match up.cmp(&down) {
        Ordering::Greater => State::Deficit,
        Ordering::Less => State::Surplus,
        Ordering::Equal => State::Balanced,
    }
}

// The state of a quarter, or of the whole period. This is the one place where the forced reduction,
// a volume of the whole period, meets the volumes of quarters.
pub fn zone_state(sheet: &Sheet, span: Span) -> State
    ensures { result ≡ state_of span sheet.now.forced.kwh (listed sheet.now.offers) }
{
    let forced = sheet.forced.kwh;
    let up = offered_volume(sheet, span, Direction::Up).kwh;
    let down = offered_volume(sheet, span, Direction::Down).kwh;
    match span {
        Span::Quarter(_) => weigh(4 * up + forced, 4 * down),
        Span::Period => weigh(up + forced, down),
    }
}
