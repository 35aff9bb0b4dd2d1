// Writes a sheet as text.
ghost use Rattle.std.specs.Prelude.{◌≡◌, length};
ghost use Rattle.text_buffer.specs.Texts.{placed};
ghost use Rattle.sheet_writer.specs.Answers.{written_answer};
ghost use Rattle.sheet_writer.specs.Rendered.{text_of_sheet};

use crate::lines::Page;
use crate::page::put_sheet;
use crate::refusal::WritingRefusal;
use sheet::place::Place;
use sheet::report::Sheet;

// Writes the text of a sheet to the front of `out`. Answers how long it is. Where it does not fit,
// `out` stays as it was, and what is beyond the text is kept.
#[tactic(auto, using(crate::proofs::AnySheet::any_length))]
pub fn write_sheet(place: Place, sheet: &Sheet, out: &mut [u8]) -> Result<usize, WritingRefusal>
    ensures answer { result ≡ written_answer (text_of_sheet place sheet.now) (length out.old) }
    ensures output { out.new ≡ placed (text_of_sheet place sheet.now) out.old }
{
    let mut page = Page::new();
    put_sheet(&mut page, place, sheet)?;
    Ok(page.copy_to(out)?)
}
