// What holds of the measures.
ghost use Rattle.measures.specs.Rounding.{QuotientsAreRounded};

pub fn quotients_are_rounded()
    ensures { QuotientsAreRounded }
{}
