// How a report is put into the book. The definitions tell the two ways apart, so they are cases, not
// closures.
ghost use Rattle.std.specs.Prelude.{◌≡◌, [], ◌∷◌};
ghost use Rattle.book.specs.Checks.{verdict};
ghost use Rattle.book.specs.Filing.{force_check};

use crate::refusal::BookRefusal;

#[derive(Clone, Copy, Debug, PartialEq, Eq)]
pub enum Putting {
    // where no sheet is in force
    Filing,
    // where one is
    Replacing,
}

impl Putting {
    // Refuses where a sheet is in force and none may be, or the other way round.
    pub(crate) fn check(self, in_force: bool) -> Result<(), BookRefusal>
        ensures { result ≡ verdict (force_check self in_force ∷ []) (tt {0}) }
    {
        match (self, in_force) {
            (Putting::Filing, true) => Err(BookRefusal::SheetInForce),
            (Putting::Replacing, false) => Err(BookRefusal::NoSheet),
            _ => Ok(()),
        }
    }
}
