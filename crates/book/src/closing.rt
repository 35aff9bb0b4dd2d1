// Decades are closed.
ghost use Rattle.std.specs.Prelude.{◌≡◌, is_some};
ghost use Rattle.std.specs.List.{list_all};
ghost use Rattle.price_history.specs.Views.{View};
ghost use Rattle.register.specs.Rolls.{Roll};
ghost use Rattle.shelf.specs.Rows.{sheet_on};
ghost use Rattle.book.specs.Closing.{last_day, close_answer, close_after};
ghost use Rattle.book.specs.Memory.{standing, memory};

use crate::book::Book;
use crate::refusal::BookRefusal;
use shelf::places::places_of;
use shelf::rows::{Row, sheet_on};

fn all_filled(rows: &[Row]) -> bool
    ensures { result ≡ list_all (λ row. is_some (sheet_on row)) rows.now }
{
    rows.iter().all(|row| sheet_on(row).is_some())
}

impl Book {
    // The last day of a decade.
    fn last_day(&self, decade: u16) -> u16
        ensures { result ≡ last_day (standing self.now) decade }
    {
        if decade < 3 { 10 * decade } else { self.days }
    }

    // Closes the next decade, of which every sheet is in force.
    pub fn close(&mut self, shelf: &[Row], decade: u16) -> Result<(), BookRefusal>
        ensures answer { (view : View) (roll : Roll) → result ≡ close_answer (memory self.old view roll shelf.now) decade }
        ensures after { (view : View) (roll : Roll) → memory self.new view roll shelf.now ≡ close_after (memory self.old view roll shelf.now) decade }
    {
        if shelf.len() < places_of(self.days, self.zones) {
            return Err(BookRefusal::ShelfShort);
        }
        if decade > 3 || decade != self.closed + 1 {
            return Err(BookRefusal::NotNextDecade);
        }
        let from = places_of(10 * self.closed, self.zones);
        let to = places_of(self.last_day(decade), self.zones);
        if !all_filled(&shelf[from..to]) {
            return Err(BookRefusal::SheetMissing);
        }
        self.closed = decade;
        Ok(())
    }
}
