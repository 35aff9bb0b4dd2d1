// A line of a section's list.
ghost use Rattle.std.specs.Prelude.{◌≡◌, ℕ, List, Result};
ghost use Rattle.sheet_text.specs.Listing.{listing, usual};
ghost use Rattle.sheet_text.specs.declared.faults.LineFault.{LineFault};

use crate::faults::LineFault;
use crate::fields::Fields;

// Its default stands in the places that no entry has yet.
pub(crate) trait Entry: Sized + Copy + Default {
    // what a line says behind an entry of the number given
    ghost says: { ℕ → ℕ → List (List ℕ) → Result Self LineFault };

    // the number that rises from entry to entry, or 0 where none has to
    ghost order: { Self → ℕ };

    fn of_fields(before: u16, line: u32, fields: Fields<'_>) -> Result<Self, LineFault>
        ensures { result ≡ says before line (listing fields.entry) };

    fn number(&self) -> u16
        ensures { result ≡ order self.now };

    ghost counts: { (before l : ℕ) (fields : List (List ℕ)) → says before l (usual fields) ≡ says before l fields };
}
