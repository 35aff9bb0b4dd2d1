// A price of a period when its sheet is changed.
use measures::price::Price;
use price_history::key::PriceKey;

// The price that the older sheet forms under a key, and the one that the newer sheet forms there.
#[derive(Clone, Copy, Debug, PartialEq, Eq)]
pub struct PriceChange {
    pub key: PriceKey,
    pub old: Option<Price>,
    pub new: Option<Price>,
}
