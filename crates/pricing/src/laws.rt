// What holds of the prices.
ghost use Rattle.pricing.specs.Worked.{WorkedFigures};

pub fn worked_figures()
    ensures { WorkedFigures }
{}
