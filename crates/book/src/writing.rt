// Sheets are written out.
ghost use Rattle.std.specs.Prelude.{◌≡◌, length};
ghost use Rattle.book.specs.Memory.{standing};
ghost use Rattle.book.specs.Writing.{write_answer, write_output};

use crate::book::Book;
use crate::refusal::BookRefusal;
use crate::stated::StatedPlace;
use sheet_writer::writing::write_sheet;
use shelf::rows::{Row, sheet_on};

impl Book {
    // Writes the sheet in force at a place to the front of `out`, and answers how long its text is.
    pub fn write(
        &self,
        shelf: &[Row],
        place: StatedPlace,
        out: &mut [u8],
    ) -> Result<usize, BookRefusal>
        ensures answer { result ≡ write_answer (standing self.now) shelf.now place (length out.old) }
        ensures output { out.new ≡ write_output (standing self.now) shelf.now place out.old }
    {
        let spot = self.find_place(shelf.len(), place)?;
        let sheet = sheet_on(&shelf[spot.number]).ok_or(BookRefusal::NoSheet)?;
        Ok(write_sheet(spot.place, sheet, out)?)
    }
}
