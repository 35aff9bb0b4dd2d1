// The places of the book.
ghost use Rattle.std.specs.Prelude.{◌≡◌, ◌<◌, not, [], ◌∷◌, IfOk};
ghost use Rattle.book.specs.Checks.{verdict};
ghost use Rattle.book.specs.Found.{found_in, spot_checks};
ghost use Rattle.book.specs.Memory.{standing, is_closed, number_in};

use crate::book::Book;
use crate::refusal::BookRefusal;
use crate::spot::Spot;
use crate::stated::StatedPlace;
use measures::calendar::Decade;
use sheet::place::Place;
use shelf::places::{number_of, places_of};

impl Book {
    // Whether the day is of a decade that is closed.
    pub(crate) fn is_closed(&self, day: u16) -> bool
        ensures { result ≡ is_closed (standing self.now) day }
    {
        Decade::of_day(day).is_some_and(|decade| u16::from(decade) <= self.closed)
    }

    // The place on a shelf of so many places.
    pub(crate) fn find_place(&self, long: usize, stated: StatedPlace) -> Result<Spot, BookRefusal>
        ensures answer { found_in result ≡ verdict (spot_checks (standing self.now) long stated) (stated, number_in (standing self.now) stated) }
        ensures within { IfOk result (λ s. s.number < long) }
    {
        if long < places_of(self.days, self.zones) {
            return Err(BookRefusal::ShelfShort);
        }
        let StatedPlace { zone, day, period } = stated;
        if !(1..=self.zones).contains(&zone)
            || !(1..=self.days).contains(&day)
            || !(1..=24).contains(&period)
        {
            return Err(BookRefusal::Outside);
        }
        let place = Place { zone, day, period };
        Ok(Spot {
            place,
            number: number_of(self.zones, place),
        })
    }
}
