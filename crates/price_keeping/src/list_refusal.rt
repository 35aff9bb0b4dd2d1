// The refusals of an ordered list as those of a history.
ghost use Rattle.std.specs.Prelude.{◌≡◌};
ghost use Rattle.price_keeping.specs.Refusals.{entry_told, strike_told};

use crate::refusal::KeepRefusal;
use ordered_list::entry::{EntryRefusal, StrikeRefusal};

impl From<EntryRefusal> for KeepRefusal {
    ghost from_gives = { λ e r. r ≡ entry_told e };

    fn from(refusal: EntryRefusal) -> KeepRefusal {
        match refusal {
            EntryRefusal::Present => KeepRefusal::Present,
            EntryRefusal::Full => KeepRefusal::Full,
        }
    }
}

impl From<StrikeRefusal> for KeepRefusal {
    ghost from_gives = { λ e r. r ≡ strike_told e };

    fn from(refusal: StrikeRefusal) -> KeepRefusal {
        match refusal {
            StrikeRefusal::Absent => KeepRefusal::Absent,
        }
    }
}
