// Why a call is refused.
ghost use Rattle.std.specs.Prelude.{◌≡◌};
ghost use Rattle.book.specs.Refusals.{told};

use sheet_text::faults::SheetFault;

#[derive(Clone, Copy, Debug, PartialEq, Eq)]
pub enum BookRefusal {
    // the text is no sheet
    Text(SheetFault),
    // the place is not in the book
    Outside,
    // a unit of the sheet is not in the register
    UnitUnknown,
    DecadeClosed,
    // a sheet is in force already
    SheetInForce,
    // a price is entered already
    PriceEntered,
    // the unit is registered already
    UnitRegistered,
    // no sheet is in force
    NoSheet,
    // more prices than the history's greatest number
    HistoryFull,
    // no place is free in the register
    RegisterFull,
    // not the next decade
    NotNextDecade,
    // a sheet of the decade is missing
    SheetMissing,
    // a number is beyond its limits
    BeyondLimits,
    ShelfShort,
    OutputShort,
    // no month has so many days, or no book so many zones
    BookSize,
    HistoryNotEmpty,
}

impl BookRefusal {
    // The number that it is told by; `u8::from` would not say which number.
    pub fn number(self) -> u8
        ensures { result ≡ (told self).number }
    {
        match self {
            BookRefusal::Text(fault) => fault.fault.kind.number(),
            BookRefusal::Outside => 6,
            BookRefusal::UnitUnknown => 7,
            BookRefusal::DecadeClosed => 8,
            BookRefusal::SheetInForce => 9,
            BookRefusal::PriceEntered => 9,
            BookRefusal::UnitRegistered => 9,
            BookRefusal::NoSheet => 10,
            BookRefusal::HistoryFull => 11,
            BookRefusal::RegisterFull => 11,
            BookRefusal::NotNextDecade => 12,
            BookRefusal::SheetMissing => 13,
            BookRefusal::BeyondLimits => 14,
            BookRefusal::ShelfShort => 15,
            BookRefusal::OutputShort => 15,
            BookRefusal::BookSize => 16,
            BookRefusal::HistoryNotEmpty => 17,
        }
    }

    // Where a text is at fault.
    pub fn fault(self) -> Option<SheetFault>
        ensures { result ≡ (told self).fault }
    {
        match self {
            BookRefusal::Text(fault) => Some(fault),
            _ => None,
        }
    }
}
