// Prices of the days before the month.
ghost use Rattle.std.specs.Prelude.{◌≡◌};
ghost use Rattle.register.specs.Rolls.{Roll};
ghost use Rattle.book.specs.Memory.{Rows, memory};
ghost use Rattle.book.specs.Past.{past_key, past_answer, past_after};

use crate::book::Book;
use crate::refusal::BookRefusal;
use crate::stated::{StatedKey, StatedPrice};
use measures::price::Price;
use price_history::history::PriceHistory;
use price_history::key::PriceKey;
use price_keeping::keeping::PriceKeeping;

const LAST_PAST_DAY: u16 = 90;

fn key_of_past(key: StatedKey) -> Option<PriceKey>
    ensures { result ≡ past_key key }
{
    if key.day > LAST_PAST_DAY {
        return None;
    }
    PriceKey::new(key.series, key.zone, key.day, key.slot)
}

impl Book {
    // Enters a price of a day before the month, while no decade is closed.
    pub fn enter_past_price<K: PriceKeeping>(
        &mut self,
        history: &mut K,
        key: StatedKey,
        price: StatedPrice,
    ) -> Result<(), BookRefusal>
        ensures answer { (roll : Roll) (rows : Rows) → result ≡ past_answer (memory self.old (K.PriceHistory.view history.old) roll rows) key price }
        ensures after { (roll : Roll) (rows : Rows) → memory self.new (K.PriceHistory.view history.new) roll rows ≡ past_after (memory self.old (K.PriceHistory.view history.old) roll rows) key price }
    {
        let key = key_of_past(key).ok_or(BookRefusal::BeyondLimits)?;
        let price = Price::new(price.kop as i64).ok_or(BookRefusal::BeyondLimits)?;
        if self.closed > 0 {
            return Err(BookRefusal::DecadeClosed);
        }
        Ok(history.enter(key, price)?)
    }
}
