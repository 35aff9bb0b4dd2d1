// How a table is read: each in constant time.
ghost use Rattle.price_keeping.specs.Tables.{table_view, table_within};

use crate::table::PriceTable;
use measures::price::Price;
use price_history::history::PriceHistory;
use price_history::key::PriceKey;

impl<'a> PriceHistory for PriceTable<'a> {
    ghost view = { table_view };

    ghost within = { table_within };

    fn price_at(&self, key: PriceKey) -> Option<Price> {
        let rank = key.rank() as usize;
        if rank < self.places {
            self.memory[rank]
        } else {
            None
        }
    }

    fn count(&self) -> usize {
        self.count
    }

    fn greatest(&self) -> usize {
        self.places
    }
}
