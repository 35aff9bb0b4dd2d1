// The line that is printed of a text that is no sheet.
ghost use Rattle.std.specs.Prelude.{◌≡◌, length, if◌then◌else◌, Some, None, nat_le};
ghost use Rattle.std.specs.Result.{result_ok};
ghost use Rattle.text_buffer.specs.Texts.{IsPut, placed};
ghost use Rattle.priced_text.specs.Refusals.{line_of_refusal};

use sheet_text::faults::SheetFault;
use text_buffer::buffer::{NoRoom, TextBuffer};

// Memory for the line.
type Line = TextBuffer<64>;

fn put_refusal(line: &mut Line, fault: SheetFault) -> Result<(), NoRoom>
    ensures { IsPut (line_of_refusal fault) line.old line.new result }
{
    line.put_figure(b"REFUSED ", fault.fault.kind.number(), b" ")?;
    line.put_number(fault.fault.line)?;
    line.put_figure(b" ", fault.fault.field, b" ")?;
    line.put(fault.section.word().as_bytes())?;
    line.put(b"\n")
}

// Writes the line of a fault to the front of `out`. Answers how long it is. Where it does not fit,
// `out` stays as it was.
#[tactic(auto, using(crate::proofs::Refused::refusal_length))]
pub fn write_refusal(fault: SheetFault, out: &mut [u8]) -> Result<usize, NoRoom>
    ensures answer { result_ok result ≡ (if nat_le (length (line_of_refusal fault)) (length out.old) then Some (length (line_of_refusal fault)) else None) }
    ensures output { out.new ≡ placed (line_of_refusal fault) out.old }
{
    let mut line = Line::new();
    put_refusal(&mut line, fault)?;
    line.copy_to(out)
}
