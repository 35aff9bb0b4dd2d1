// Prices of one series, zone and slot.
use measures::price::Price;

// What is shown on each history day, from day 1 on, for marginal prices up in zone 1 and slot 1.
#[derive(Clone, Copy)]
pub struct Daily {
    pub prices: [Option<Price>; 121],
}
