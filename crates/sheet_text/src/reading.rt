// Reads a sheet from its text.
ghost use Rattle.std.specs.Prelude.{◌≡◌};
ghost use Rattle.sheet_text.specs.Reading.{reading};
ghost use Rattle.sheet_text.specs.Reported.{reported};

use crate::faults::SheetFault;
use crate::reader::Reader;
use crate::report::Report;

pub fn read(text: &[u8]) -> Result<Report, SheetFault>
    ensures { reported result ≡ reading text.now }
{
    let mut reader = Reader::new(text);
    reader.read_head()?;
    reader.read_offers()?;
    reader.read_units()?;
    reader.read_groups()?;
    reader.read_end()?;
    Ok(reader.draft.report)
}
