// The refusals of an ordered list as those of the register.
ghost use Rattle.std.specs.Prelude.{◌≡◌};
ghost use Rattle.register.specs.Refusals.{entry_told};

use crate::refusal::RegisterRefusal;
use ordered_list::entry::EntryRefusal;

impl From<EntryRefusal> for RegisterRefusal {
    ghost from_gives = { λ e r. r ≡ entry_told e };

    fn from(refusal: EntryRefusal) -> RegisterRefusal {
        match refusal {
            EntryRefusal::Present => RegisterRefusal::Present,
            EntryRefusal::Full => RegisterRefusal::Full,
        }
    }
}
