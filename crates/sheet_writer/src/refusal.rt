// Why a sheet is not written.
ghost use Rattle.std.specs.Prelude.{◌≡◌};
ghost use Rattle.sheet_writer.specs.Answers.{writing_number};
ghost use Rattle.sheet_writer.specs.declared.refusal.WritingRefusal.TheVariants.{OutputShort};

use text_buffer::buffer::NoRoom;

#[derive(Clone, Copy, Debug, PartialEq, Eq)]
pub enum WritingRefusal {
    // the text does not fit the output
    OutputShort,
}

impl WritingRefusal {
    // The number that it is told by; `u8::from` would not say which number.
    pub fn number(self) -> u8
        ensures { result ≡ writing_number self }
    {
        match self {
            WritingRefusal::OutputShort => 15,
        }
    }
}

impl From<NoRoom> for WritingRefusal {
    ghost from_gives = { λ _ r. r ≡ OutputShort };

    fn from(_no_room: NoRoom) -> WritingRefusal {
        WritingRefusal::OutputShort
    }
}
