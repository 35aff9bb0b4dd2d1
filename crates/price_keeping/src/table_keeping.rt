// How a table is changed: each in constant time.
ghost use Rattle.std.specs.Prelude.{◌≡◌};
ghost use Rattle.price_history.specs.Keys.{rank_of};
ghost use Rattle.price_keeping.specs.Changes.{entry_answer, entered, strike_answer, struck};
ghost use Rattle.price_keeping.specs.Tables.{table_view, beyond};

use crate::keeping::PriceKeeping;
use crate::refusal::KeepRefusal;
use crate::table::PriceTable;
use measures::price::Price;
use price_history::history::PriceHistory;
use price_history::key::PriceKey;

impl<'a> PriceKeeping for PriceTable<'a> {
    fn enter(&mut self, key: PriceKey, price: Price) -> Result<(), KeepRefusal>
        ensures answer { result ≡ entry_answer (table_view self.old) (rank_of key) }
        ensures after { table_view self.new ≡ entered (table_view self.old) (rank_of key) price }
        ensures beyond { beyond self.new ≡ beyond self.old }
    {
        if self.price_at(key).is_some() {
            return Err(KeepRefusal::Present);
        }
        if self.count == self.places {
            return Err(KeepRefusal::Full);
        }
        let rank = key.rank() as usize;
        self.memory[rank] = Some(price);
        self.count += 1;
        Ok(())
    }

    fn strike(&mut self, key: PriceKey) -> Result<Price, KeepRefusal>
        ensures answer { result ≡ strike_answer (table_view self.old) (rank_of key) }
        ensures after { table_view self.new ≡ struck (table_view self.old) (rank_of key) }
        ensures beyond { beyond self.new ≡ beyond self.old }
    {
        let price = self.price_at(key).ok_or(KeepRefusal::Absent)?;
        let rank = key.rank() as usize;
        self.memory[rank] = None;
        self.count -= 1;
        Ok(price)
    }
}
