// What holds of every change.
ghost use Rattle.price_changes.specs.Laws.{ChangesAreCounted};

pub fn changes_are_counted()
    ensures { ChangesAreCounted }
{}
