// Laws of keys and of means, each stated by what a function ensures.
ghost use Rattle.price_history.specs.Laws.{RanksAreApart, OlderPricesDoNotCount};

// The number of ranks, of which each key has one of its own.
pub fn ranks_are_apart() -> u32
    ensures { RanksAreApart result }
{
    58_080
}

// How many days, and how many prices, a mean looks back.
pub fn older_prices_do_not_count() -> (u16, u16)
    ensures { OlderPricesDoNotCount result.0 result.1 }
{
    (90, 30)
}
