// A line's fault on its way up: it takes the section of the line with it.
ghost use Rattle.std.specs.Prelude.{◌≡◌};
ghost use Rattle.sheet_text.specs.Faults.{fault_in};
ghost use Rattle.sheet_text.specs.declared.faults.Section.{Section};
ghost use Rattle.sheet_text.specs.declared.faults.Section.TheVariants as sections;

use crate::faults::{LineFault, Section, SheetFault};
use std::marker::PhantomData;

// A part of a sheet, as a type.
pub(crate) trait Part {
    const SECTION: Section;

    ghost SECTION: { Section };
}

#[derive(Clone, Copy)]
pub(crate) struct Head;

#[derive(Clone, Copy)]
pub(crate) struct Offers;

#[derive(Clone, Copy)]
pub(crate) struct Units;

#[derive(Clone, Copy)]
pub(crate) struct Groups;

#[derive(Clone, Copy)]
pub(crate) struct End;

impl Part for Head {
    ghost SECTION = { sections.Head };

    const SECTION: Section = Section::Head;
}

impl Part for Offers {
    ghost SECTION = { sections.Offers };

    const SECTION: Section = Section::Offers;
}

impl Part for Units {
    ghost SECTION = { sections.Units };

    const SECTION: Section = Section::Units;
}

impl Part for Groups {
    ghost SECTION = { sections.Groups };

    const SECTION: Section = Section::Groups;
}

impl Part for End {
    ghost SECTION = { sections.End };

    const SECTION: Section = Section::End;
}

// A line's fault in the part P.
#[derive(Clone, Copy)]
pub(crate) struct FaultIn<P> {
    pub fault: LineFault,
    pub part: PhantomData<P>,
}

impl<P> From<LineFault> for FaultIn<P> {
    ghost from_gives = { λ e r. r.fault ≡ e };

    fn from(fault: LineFault) -> FaultIn<P> {
        FaultIn {
            fault,
            part: PhantomData,
        }
    }
}

impl<P: Part> From<FaultIn<P>> for SheetFault {
    ghost from_gives = { λ e r. r ≡ fault_in P.SECTION e.fault };

    fn from(raised: FaultIn<P>) -> SheetFault {
        SheetFault {
            section: P::SECTION,
            fault: raised.fault,
        }
    }
}
