// A book is opened.
ghost use Rattle.std.specs.Prelude.{◌≡◌, ◌≤◌, ◌++◌, length, drop, replicate, is_ok, if◌then◌else◌, None};
ghost use Rattle.shelf.specs.Places.{places_of};
ghost use Rattle.book.specs.Opening.{opened, open_answer, open_rows};

use crate::book::Book;
use crate::refusal::BookRefusal;
use price_history::history::PriceHistory;
use shelf::places::places_of;
use shelf::rows::Row;

impl Book {
    // A book of a month with no sheet and no closed decade, over a history without a price. Empties its
    // places on the shelf.
    pub fn open<H: PriceHistory>(
        days: u16,
        zones: u16,
        history: &H,
        shelf: &mut [Row],
    ) -> Result<Book, BookRefusal>
        ensures answer { opened result ≡ open_answer days zones (H.PriceHistory.view history.now) (length shelf.old) }
        ensures rows { shelf.new ≡ (if is_ok result then open_rows days zones shelf.old else shelf.old) }
    {
        if !(28..=31).contains(&days) || !(1..=2).contains(&zones) {
            return Err(BookRefusal::BookSize);
        }
        let places = places_of(days, zones);
        if shelf.len() < places {
            return Err(BookRefusal::ShelfShort);
        }
        if history.count() != 0 {
            return Err(BookRefusal::HistoryNotEmpty);
        }
        shelf[..places].fill(None);
        Ok(Book {
            days,
            zones,
            closed: 0,
        })
    }
}
