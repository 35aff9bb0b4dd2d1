// All prices of a settlement period.
ghost use Rattle.std.specs.Prelude.{◌≡◌};
ghost use Rattle.pricing.specs.Cases.{case, case_of};
ghost use Rattle.pricing.specs.Prices.{settled};
ghost use Rattle.pricing.specs.Figures.{settled_of, quarter_of, quarter_figures, period_of, period_figures};

use crate::case::Case;
use crate::kind::PriceKind;
use crate::prices::{PeriodPrices, QuarterPrices, SettlementPrices};
use crate::quarter::{FIRST, FOURTH, Quarter, SECOND, THIRD};
use offers::span::{Span, State};
use offers::states::zone_state;
use price_history::history::PriceHistory;
use sheet::lines::Direction;
use sheet::place::Place;
use sheet::report::Sheet;

impl<'a, H: PriceHistory> Case<'a, H> {
    fn settlement_prices(&self) -> SettlementPrices
        ensures { settled_of result ≡ settled (case_of H.PriceHistory.view self.now) }
    {
        match zone_state(self.sheet, Span::Period) {
            State::Deficit => {
                let mean = self.mean_price(Direction::Up);
                let limit = self.price(PriceKind::Limit(Direction::Down));
                SettlementPrices {
                    imsp: mean,
                    up: mean,
                    down: limit,
                }
            }
            State::Surplus => {
                let mean = self.mean_price(Direction::Down);
                let limit = self.price(PriceKind::Limit(Direction::Up));
                SettlementPrices {
                    imsp: mean,
                    up: limit,
                    down: mean,
                }
            }
            State::Balanced => {
                let price = self.sheet.day_ahead;
                SettlementPrices {
                    imsp: price,
                    up: price,
                    down: price,
                }
            }
        }
    }

    fn quarter_prices(&self, quarter: Quarter) -> QuarterPrices
        ensures { quarter_of result ≡ quarter_figures (case_of H.PriceHistory.view self.now) quarter.number }
    {
        QuarterPrices {
            state: zone_state(self.sheet, Span::Quarter(quarter.number)),
            up: self.marginal_price(quarter, Direction::Up),
            down: self.marginal_price(quarter, Direction::Down),
        }
    }

    fn period_prices(&self) -> PeriodPrices
        ensures { period_of result ≡ period_figures (case_of H.PriceHistory.view self.now) }
    {
        PeriodPrices {
            state: zone_state(self.sheet, Span::Period),
            quarters: [FIRST, SECOND, THIRD, FOURTH].map(|quarter| self.quarter_prices(quarter)),
            limit_up: self.price(PriceKind::Limit(Direction::Up)),
            limit_down: self.price(PriceKind::Limit(Direction::Down)),
            mean_up: self.mean_price(Direction::Up),
            mean_down: self.mean_price(Direction::Down),
            settlement: self.settlement_prices(),
        }
    }
}

// The prices that a period is settled at, and no price that its state does not ask for.
pub fn settlement_prices<H: PriceHistory>(
    history: &H,
    place: Place,
    sheet: &Sheet,
) -> SettlementPrices
    ensures { settled_of result ≡ settled (case (H.PriceHistory.view history.now) place sheet.now) }
{
    let case = Case {
        history,
        place,
        sheet,
    };
    case.settlement_prices()
}

// Every price of a period.
pub fn period_prices<H: PriceHistory>(history: &H, place: Place, sheet: &Sheet) -> PeriodPrices
    ensures { period_of result ≡ period_figures (case (H.PriceHistory.view history.now) place sheet.now) }
{
    let case = Case {
        history,
        place,
        sheet,
    };
    case.period_prices()
}
