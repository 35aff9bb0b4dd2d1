// How a list of prices is changed.
use crate::keeping::PriceKeeping;
use crate::key_order::ListKey;
use crate::list::PriceList;
use crate::refusal::KeepRefusal;
use measures::price::Price;
use price_history::key::PriceKey;

impl<'a> PriceKeeping for PriceList<'a> {
    fn enter(&mut self, key: PriceKey, price: Price) -> Result<(), KeepRefusal> {
        Ok(self.prices.enter(&ListKey { key }, price)?)
    }

    fn strike(&mut self, key: PriceKey) -> Result<Price, KeepRefusal> {
        Ok(self.prices.strike(&ListKey { key })?)
    }
}
