// What holds of states and prices.
ghost use Rattle.offers.specs.Laws.{StatesCompare, OutermostPricesAreOffered};

pub fn states_compare()
    ensures { StatesCompare }
{}

pub fn outermost_prices_are_offered()
    ensures { OutermostPricesAreOffered }
{}
