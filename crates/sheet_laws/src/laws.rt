// What holds of every text.
ghost use Rattle.sheet_laws.specs.Laws.{SheetsAreWithinLimits, FaultsStand};

pub fn sheets_are_within_limits()
    ensures { SheetsAreWithinLimits }
{}

pub fn faults_stand()
    ensures { FaultsStand }
{}
