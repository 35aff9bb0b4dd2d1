// How a list of prices is made and read.
ghost use Rattle.std.specs.Prelude.{◌≡◌, length};
ghost use Rattle.price_keeping.specs.Changes.{fresh_view};
ghost use Rattle.price_keeping.specs.Lists.{list_view, list_within};

use crate::key_order::ListKey;
use crate::list::PriceList;
use measures::price::Price;
use ordered_list::entry::Entry;
use ordered_list::list::OrderedList;
use price_history::history::PriceHistory;
use price_history::key::PriceKey;

impl<'a> PriceList<'a> {
    // An empty list, whatever the memory held. Each of its places can take a price.
    pub fn over(memory: &'a mut [Entry<Price>]) -> PriceList<'a>
        ensures { list_view result ≡ fresh_view (length memory.old) }
    {
        PriceList {
            prices: OrderedList::over(memory),
        }
    }
}

impl<'a> PriceHistory for PriceList<'a> {
    ghost view = { list_view };

    ghost within = { list_within };

    fn price_at(&self, key: PriceKey) -> Option<Price> {
        self.prices.get(&ListKey { key })
    }

    fn count(&self) -> usize {
        self.prices.count()
    }

    fn greatest(&self) -> usize {
        self.prices.places()
    }
}
