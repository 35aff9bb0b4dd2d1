// How the register is made, read and added to.
ghost use Rattle.std.specs.Prelude.{◌≡◌, ◌≤◌, length, IfSome};
ghost use Rattle.register.specs.Rolls.{roll, empty_roll, register_answer, registered};

use crate::party::Party;
use crate::refusal::RegisterRefusal;
use crate::register::Register;
use crate::unit::UnitNumber;
use ordered_list::entry::Entry;
use ordered_list::list::OrderedList;

impl<'a> Register<'a> {
    // An empty register, whatever the memory held. Each of its places can take a unit.
    pub fn over(memory: &'a mut [Entry<Party>]) -> Register<'a>
        ensures { roll result ≡ empty_roll (length memory.old) }
    {
        Register {
            units: OrderedList::over(memory),
        }
    }

    pub fn count(&self) -> usize
        ensures { result ≡ (roll self.now).count }
    {
        self.units.count()
    }

    pub fn places(&self) -> usize
        ensures { result ≡ (roll self.now).places }
    {
        self.units.places()
    }

    // The party that the unit belongs to.
    pub fn party_of(&self, unit: u16) -> Option<u16>
        ensures party { result ≡ (roll self.now).party unit }
        ensures within { IfSome result (λ party. (1 ≤ party) × (party ≤ 64)) }
    {
        let unit = UnitNumber::new(unit)?;
        Some(self.units.get(&unit)?.number)
    }

    pub fn register(&mut self, unit: u16, party: u16) -> Result<(), RegisterRefusal>
        ensures answer { result ≡ register_answer (roll self.old) unit party }
        ensures after { roll self.new ≡ registered (roll self.old) unit party }
    {
        let unit = UnitNumber::new(unit).ok_or(RegisterRefusal::Limits)?;
        let party = Party::new(party).ok_or(RegisterRefusal::Limits)?;
        Ok(self.units.enter(&unit, party)?)
    }
}
