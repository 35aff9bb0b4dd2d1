// How a history of a single series, zone and slot is read.
ghost use Rattle.std.specs.Prelude.{◌≡◌};
ghost use Rattle.price_history_tests.specs.Shown.{shown_at, daily_view, daily_within};

use crate::daily::Daily;
use measures::price::Price;
use price_history::history::PriceHistory;
use price_history::key::PriceKey;

impl Daily {
    fn at_rank(&self, rank: u32) -> Option<Price>
        ensures { result ≡ shown_at self.now rank }
    {
        if rank < 11_616 && rank % 96 == 0 {
            self.prices[rank as usize / 96]
        } else {
            None
        }
    }
}

impl PriceHistory for Daily {
    ghost view = { daily_view };

    ghost within = { daily_within };

    fn price_at(&self, key: PriceKey) -> Option<Price> {
        self.at_rank(key.rank())
    }

    fn count(&self) -> usize {
        (0..58_080)
            .filter(|rank| self.at_rank(*rank).is_some())
            .count()
    }

    fn greatest(&self) -> usize {
        58_080
    }
}
