// Units are registered.
ghost use Rattle.std.specs.Prelude.{◌≡◌};
ghost use Rattle.price_history.specs.Views.{View};
ghost use Rattle.register.specs.Rolls.{roll};
ghost use Rattle.book.specs.Enrolling.{enrol_answer, enrol_after};
ghost use Rattle.book.specs.Memory.{Rows, memory};

use crate::book::Book;
use crate::refusal::BookRefusal;
use register::register::Register;

impl Book {
    // Registers the party of a unit.
    pub fn register(
        &mut self,
        register: &mut Register<'_>,
        unit: u16,
        party: u16,
    ) -> Result<(), BookRefusal>
        ensures answer { (view : View) (rows : Rows) → result ≡ enrol_answer (memory self.old view (roll register.old) rows) unit party }
        ensures after { (view : View) (rows : Rows) → memory self.new view (roll register.new) rows ≡ enrol_after (memory self.old view (roll register.old) rows) unit party }
    {
        Ok(register.register(unit, party)?)
    }
}
