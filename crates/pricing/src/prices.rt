// The prices of a settlement period.
use measures::price::Price;
use offers::span::State;

// The prices that a period is settled at.
#[derive(Clone, Copy, Debug, PartialEq, Eq)]
pub struct SettlementPrices {
    // for imbalances
    pub imsp: Price,
    // for balancing energy up
    pub up: Price,
    // for balancing energy down
    pub down: Price,
}

// The state of a quarter and its marginal prices.
#[derive(Clone, Copy, Debug, PartialEq, Eq)]
pub struct QuarterPrices {
    pub state: State,
    pub up: Price,
    pub down: Price,
}

// Every price of a period.
#[derive(Clone, Copy, Debug, PartialEq, Eq)]
pub struct PeriodPrices {
    pub state: State,
    pub quarters: [QuarterPrices; 4],
    // the highest of the offers up and the lowest of the offers down
    pub limit_up: Price,
    pub limit_down: Price,
    // the marginal prices of the quarters, weighed by their volumes
    pub mean_up: Price,
    pub mean_down: Price,
    pub settlement: SettlementPrices,
}
