// Volumes of the offers of a sheet.
ghost use Rattle.std.specs.Prelude.{◌≡◌, ◌≤◌, length};
ghost use Rattle.sheet.specs.Listed.{listed};
ghost use Rattle.offers.specs.declared.span.Span.TheVariants.{Period};
ghost use Rattle.offers.specs.Volumes.{in_quarter, offered};

use crate::selection::Selection;
use crate::span::Span;
use measures::volume::VolumeSum;
use sheet::lines::{Direction, Offer};
use sheet::report::Sheet;

fn kwh_of_quarter(offers: &[Offer], quarter: u16, direction: Direction) -> u32
    requires { length offers.now ≤ 24 }
    ensures value { result ≡ in_quarter quarter direction offers.now }
    ensures bound { result ≤ 24000000 }
{
    let picked = Selection {
        span: Span::Quarter(quarter),
        direction,
    };
    offers
        .iter()
        .filter(|offer| picked.picks(offer))
        .map(|offer| offer.volume.kwh)
        .sum()
}

fn kwh_of_period(offers: &[Offer], direction: Direction) -> u32
    requires { length offers.now ≤ 24 }
    ensures value { result ≡ offered Period direction offers.now }
    ensures bound { result ≤ 96000000 }
{
    [1, 2, 3, 4]
        .iter()
        .map(|quarter| kwh_of_quarter(offers, *quarter, direction))
        .sum()
}

// The volume of the offers in a direction.
pub fn offered_volume(sheet: &Sheet, span: Span, direction: Direction) -> VolumeSum
    ensures value { result.kwh ≡ offered span direction (listed sheet.now.offers) }
    ensures bound { result.kwh ≤ 96000000 }
{
    let offers = sheet.offers.as_slice();
    let kwh = match span {
        Span::Quarter(quarter) => kwh_of_quarter(offers, quarter, direction),
        Span::Period => kwh_of_period(offers, direction),
    };
    VolumeSum { kwh }
}
