// The refusals of the parts, as those of the book.
ghost use Rattle.std.specs.Prelude.{◌≡◌};
ghost use Rattle.book.specs.Refusals.{keep_told, roll_told};
ghost use Rattle.book.specs.declared.refusal.BookRefusal.TheVariants.{Text, HistoryFull, OutputShort};

use crate::refusal::BookRefusal;
use price_changes::refusal::ChangeRefusal;
use price_keeping::refusal::KeepRefusal;
use register::refusal::RegisterRefusal;
use sheet_text::faults::SheetFault;
use sheet_writer::refusal::WritingRefusal;
use text_buffer::buffer::NoRoom;

impl From<SheetFault> for BookRefusal {
    ghost from_gives = { λ e r. r ≡ Text e };

    fn from(fault: SheetFault) -> BookRefusal {
        BookRefusal::Text(fault)
    }
}

impl From<ChangeRefusal> for BookRefusal {
    ghost from_gives = { λ _ r. r ≡ HistoryFull };

    fn from(refusal: ChangeRefusal) -> BookRefusal {
        match refusal {
            ChangeRefusal::Full => BookRefusal::HistoryFull,
        }
    }
}

impl From<KeepRefusal> for BookRefusal {
    ghost from_gives = { λ e r. r ≡ keep_told e };

    fn from(refusal: KeepRefusal) -> BookRefusal {
        match refusal {
            KeepRefusal::Present => BookRefusal::PriceEntered,
            KeepRefusal::Full => BookRefusal::HistoryFull,
            KeepRefusal::Absent => BookRefusal::NoSheet,
        }
    }
}

impl From<RegisterRefusal> for BookRefusal {
    ghost from_gives = { λ e r. r ≡ roll_told e };

    fn from(refusal: RegisterRefusal) -> BookRefusal {
        match refusal {
            RegisterRefusal::Limits => BookRefusal::BeyondLimits,
            RegisterRefusal::Present => BookRefusal::UnitRegistered,
            RegisterRefusal::Full => BookRefusal::RegisterFull,
        }
    }
}

impl From<WritingRefusal> for BookRefusal {
    ghost from_gives = { λ _ r. r ≡ OutputShort };

    fn from(refusal: WritingRefusal) -> BookRefusal {
        match refusal {
            WritingRefusal::OutputShort => BookRefusal::OutputShort,
        }
    }
}

impl From<NoRoom> for BookRefusal {
    ghost from_gives = { λ _ r. r ≡ OutputShort };

    fn from(_no_room: NoRoom) -> BookRefusal {
        BookRefusal::OutputShort
    }
}
