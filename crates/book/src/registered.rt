// Whether the units of a sheet are registered.
ghost use Rattle.std.specs.Prelude.{◌≡◌, ℕ, is_some};
ghost use Rattle.std.specs.List.{list_all};
ghost use Rattle.sheet.specs.Figures.{figures_of};
ghost use Rattle.register.specs.Rolls.{roll};
ghost use Rattle.book.specs.Memory.{units_known};

use register::register::Register;
use sheet::lines::{Offer, UnitLine};
use sheet::report::Sheet;

// A line that names a unit.
trait OfUnit {
    ghost unit: { Self → ℕ };

    fn unit_number(&self) -> u16
        ensures { result ≡ unit self.now };
}

impl OfUnit for Offer {
    ghost unit = { λ o. o.unit };

    fn unit_number(&self) -> u16 {
        self.unit
    }
}

impl OfUnit for UnitLine {
    ghost unit = { λ u. u.unit };

    fn unit_number(&self) -> u16 {
        self.unit
    }
}

fn all_registered<L: OfUnit>(register: &Register<'_>, lines: &[L]) -> bool
    ensures { result ≡ list_all (λ l. is_some ((roll register.now).party (L.OfUnit.unit l))) lines.now }
{
    lines
        .iter()
        .all(|line| register.party_of(line.unit_number()).is_some())
}

pub(crate) fn knows_units(register: &Register<'_>, sheet: &Sheet) -> bool
    ensures { result ≡ units_known (roll register.now) (figures_of sheet.now) }
{
    all_registered(register, sheet.offers.as_slice())
        && all_registered(register, sheet.units.as_slice())
}
