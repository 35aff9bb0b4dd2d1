// Sheets on their way to text and back.
ghost use Rattle.std.specs.Prelude.{◌≤◌, IfSome};

use crate::generator::{any_place, any_sheet};
use crate::numbers::Numbers;
use sheet::place::Place;
use sheet::report::Sheet;
use sheet_text::reading::read;
use sheet_writer::laws::LONGEST;
use sheet_writer::writing::write_sheet;

const SHEETS: u32 = 1000;

#[derive(Clone, Copy)]
pub struct Tally {
    // sheets that were written and read
    pub sheets: u32,
    // sheets that were written again as the same text
    pub same: u32,
    // the bytes of all the texts
    pub bytes: u64,
}

// How long the text of a sheet is that is read, and whether it is written again as the same.
fn round_trip(place: Place, sheet: &Sheet) -> Option<(usize, bool)>
    ensures { IfSome result (λ p. p.0 ≤ 1612) }
{
    let mut first = [0; LONGEST];
    let length = write_sheet(place, sheet, &mut first[..]).ok()?;
    let text = first.get(0..length)?;
    let report = read(text).ok()?;
    let mut second = [0; LONGEST];
    let again = write_sheet(report.place, &report.sheet, &mut second[..]).ok()?;
    Some((length, second.get(0..again)? == text))
}

pub(crate) fn try_all() -> Tally {
    let mut numbers = Numbers { state: 2024 };
    let mut tally = Tally {
        sheets: 0,
        same: 0,
        bytes: 0,
    };
    for _tried in 0..SHEETS {
        let place = any_place(&mut numbers);
        let sheet = any_sheet(&mut numbers);
        if let Some((length, same)) = round_trip(place, &sheet) {
            tally.sheets += 1;
            tally.same += u32::from(same);
            tally.bytes += length as u64;
        }
    }
    tally
}
