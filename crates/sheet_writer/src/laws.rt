// What holds of every sheet and of every text.
ghost use Rattle.sheet_writer.specs.Laws.{Longest, ReadIsWrittenBack, WrittenIsReadBack, NoTwoTextsHaveOneSheet, NoTwoSheetsHaveOneText};

// The length of the longest text of a sheet within its limits.
pub const LONGEST: usize = 1612;

#[tactic(auto, using(crate::proofs::FullSheet::longest))]
pub fn longest_text() -> usize
    ensures { Longest result }
{
    LONGEST
}

#[tactic(auto, using(crate::proofs::TextBack::read_is_written_back))]
pub fn read_is_written_back()
    ensures { ReadIsWrittenBack }
{}

#[tactic(auto, using(crate::proofs::TextRead::written_is_read_back))]
pub fn written_is_read_back()
    ensures { WrittenIsReadBack }
{}

pub fn no_two_texts_have_one_sheet()
    ensures { NoTwoTextsHaveOneSheet }
{}

#[tactic(auto, using(crate::proofs::RoundTrip::no_two_sheets))]
pub fn no_two_sheets_have_one_text()
    ensures { NoTwoSheetsHaveOneText }
{}
