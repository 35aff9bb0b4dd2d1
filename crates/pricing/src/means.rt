// Marginal prices weighed by the volumes of the quarters.
ghost use Rattle.std.specs.Prelude.{◌≡◌, ◌≤◌, pos, unsigned_abs};
ghost use Rattle.std.specs.Option.{option_map};
ghost use Rattle.measures.specs.Limits.{WithinPrices};
ghost use Rattle.measures.specs.Rounding.{quotient};
ghost use Rattle.sheet.specs.Listed.{listed};
ghost use Rattle.offers.specs.Volumes.{in_quarter, offered};
ghost use Rattle.offers.specs.declared.span.Span.TheVariants.{Period};
ghost use Rattle.pricing.specs.Cases.{case_of};
ghost use Rattle.pricing.specs.Prices.{worth, up_to, mean_price};

use crate::case::Case;
use crate::quarter::Quarter;
use measures::amount::Amount;
use measures::money::Money;
use measures::price::Price;
use measures::rounding::rounded_quotient;
use measures::volume::VolumeSum;
use offers::span::Span;
use offers::volumes::offered_volume;
use price_history::history::PriceHistory;
use sheet::lines::Direction;

// The size of a sum of worths, by the volume; none where there is no volume.
fn mean_size(worth: i64, volume: VolumeSum) -> Option<Price>
    requires { WithinPrices worth volume.kwh }
    ensures { option_map (λ price. price.kop) result ≡ quotient (pos (unsigned_abs worth)) volume.kwh }
{
    Price::new(rounded_quotient(worth.abs(), volume.kwh as u64)?)
}

impl<'a, H: PriceHistory> Case<'a, H> {
    // What the offers of a quarter come to at its marginal price, which is not looked for without an offer.
    fn worth(&self, quarter: Quarter, direction: Direction) -> Money
        ensures value { result.mkop ≡ worth direction (case_of H.PriceHistory.view self.now) quarter.number }
        ensures bound { WithinPrices result.mkop (in_quarter quarter.number direction (listed self.now.sheet.now.offers)) }
        ensures small { unsigned_abs result.mkop ≤ 960000000000000 }
    {
        let volume = offered_volume(self.sheet, Span::Quarter(quarter.number), direction);
        if volume.kwh == 0 {
            return Money::ZERO;
        }
        self.marginal_price(quarter, direction).cost(volume)
    }

    fn sum_of_worths(&self, direction: Direction) -> i64
        ensures value { result ≡ up_to 4 (worth direction (case_of H.PriceHistory.view self.now)) }
        ensures bound { WithinPrices result (offered Period direction (listed self.now.sheet.now.offers)) }
    {
        // not a chain: that its signed `sum` fits stays open
        let mut sum = 0;
        for number in 1..=4 {
            sum += self.worth(Quarter { number }, direction).mkop;
        }
        sum
    }

    // The mean marginal price of a period.
    pub(crate) fn mean_price(&self, direction: Direction) -> Price
        ensures { result.kop ≡ mean_price direction (case_of H.PriceHistory.view self.now) }
    {
        let worth = self.sum_of_worths(direction);
        let volume = offered_volume(self.sheet, Span::Period, direction);
        mean_size(worth, volume).unwrap_or(self.sheet.day_ahead)
    }
}
