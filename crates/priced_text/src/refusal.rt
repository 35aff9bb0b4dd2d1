// Why a text is not priced.
ghost use Rattle.std.specs.Prelude.{◌≡◌};
ghost use Rattle.priced_text.specs.Numbers.{refusal_number};
ghost use Rattle.priced_text.specs.declared.refusal.PricingRefusal.TheVariants.{Text, OutputShort};

use sheet_text::faults::SheetFault;
use text_buffer::buffer::NoRoom;

#[derive(Clone, Copy, Debug, PartialEq, Eq)]
pub enum PricingRefusal {
    // the text is no sheet
    Text(SheetFault),
    // the priced text does not fit the output
    OutputShort,
}

impl PricingRefusal {
    // The number that it is told by; `u8::from` would not say which number.
    pub fn number(self) -> u8
        ensures { result ≡ refusal_number self }
    {
        match self {
            PricingRefusal::Text(fault) => fault.fault.kind.number(),
            PricingRefusal::OutputShort => 15,
        }
    }
}

impl From<SheetFault> for PricingRefusal {
    ghost from_gives = { λ e r. r ≡ Text e };

    fn from(fault: SheetFault) -> PricingRefusal {
        PricingRefusal::Text(fault)
    }
}

impl From<NoRoom> for PricingRefusal {
    ghost from_gives = { λ _ r. r ≡ OutputShort };

    fn from(_no_room: NoRoom) -> PricingRefusal {
        PricingRefusal::OutputShort
    }
}
