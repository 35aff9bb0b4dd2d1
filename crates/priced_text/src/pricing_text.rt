// Pricing a sheet's text.
ghost use Rattle.std.specs.Prelude.{◌≡◌, length};
ghost use Rattle.sheet_text.specs.Reading.{reading};
ghost use Rattle.priced_text.specs.Answers.{priced_answer, priced_output};

use crate::lines::Page;
use crate::page::PricedPeriod;
use crate::refusal::PricingRefusal;
use offers::span::Span;
use offers::states::zone_state;
use price_history::history::PriceHistory;
use pricing::period::settlement_prices;
use sheet_text::reading::read;

// Prices a sheet's text against a history, and writes the priced period to the front of `out`. Answers
// how long it is. A refusal leaves `out` as it was, and what is beyond the text is kept.
pub fn price_text<H: PriceHistory>(
    history: &H,
    text: &[u8],
    out: &mut [u8],
) -> Result<usize, PricingRefusal>
    ensures answer { result ≡ priced_answer (H.PriceHistory.view history.now) (reading text.now) (length out.old) }
    ensures output { out.new ≡ priced_output (H.PriceHistory.view history.now) (reading text.now) out.old }
{
    let report = read(text)?;
    let state = zone_state(&report.sheet, Span::Period);
    let prices = settlement_prices(history, report.place, &report.sheet);
    let period = PricedPeriod {
        state,
        prices,
        sheet: &report.sheet,
    };
    let mut page = Page::new();
    period.put_on(&mut page)?;
    Ok(page.copy_to(out)?)
}
