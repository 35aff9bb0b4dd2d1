// The places of the shelf by number: day by day, in a day zone by zone, in a zone period by period.
ghost use Rattle.std.specs.Prelude.{◌≡◌};
ghost use Rattle.shelf.specs.Places.{places_of, number_of};

use sheet::place::Place;

const PERIODS: usize = 24;

// How many places a month of so many days has.
pub fn places_of(days: u16, zones: u16) -> usize
    ensures { result ≡ places_of days zones }
{
    days as usize * zones as usize * PERIODS
}

// The number of a place, from 0.
pub fn number_of(zones: u16, place: Place) -> usize
    ensures { result ≡ number_of zones place.zone place.day place.period }
{
    let zone = (place.day as usize - 1) * zones as usize + (place.zone as usize - 1);
    zone * PERIODS + (place.period as usize - 1)
}
