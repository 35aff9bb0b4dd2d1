// The lines of a priced period.
ghost use Rattle.std.specs.Prelude.{◌≡◌};
ghost use Rattle.std.specs.List.{flat_map};
ghost use Rattle.text_buffer.specs.Texts.{IsPut};
ghost use Rattle.pricing.specs.Figures.{settled_of};
ghost use Rattle.priced_text.specs.Lines.{state_line, price_line, money_line, count_line, charge_line};

use charges::lines::Charged;
use measures::money::Money;
use measures::price::Price;
use offers::span::State;
use pricing::prices::SettlementPrices;
use text_buffer::buffer::{NoRoom, TextBuffer};

// Memory for the text of a priced period.
pub type Page = TextBuffer<935>;

// Lines are put part by part, since what `write!` promises does not say when one does not fit.

pub(crate) fn put_state(page: &mut Page, state: State) -> Result<(), NoRoom>
    ensures { IsPut (state_line state) page.old page.new result }
{
    match state {
        State::Deficit => page.put(b"DEFICIT\n"),
        State::Surplus => page.put(b"SURPLUS\n"),
        State::Balanced => page.put(b"BALANCED\n"),
    }
}

pub(crate) fn put_price(page: &mut Page, name: &[u8], price: Price) -> Result<(), NoRoom>
    ensures { IsPut (price_line name.now price.kop) page.old page.new result }
{
    page.put_figure(name, price.kop, b" kop/MWh\n")
}

pub(crate) fn put_money(page: &mut Page, name: &[u8], money: Money) -> Result<(), NoRoom>
    ensures { IsPut (money_line name.now money.mkop) page.old page.new result }
{
    page.put_figure(name, money.mkop, b" mkop\n")
}

pub(crate) fn put_count(page: &mut Page, name: &[u8], count: usize) -> Result<(), NoRoom>
    ensures { IsPut (count_line name.now count) page.old page.new result }
{
    page.put_figure(name, count, b"\n")
}

fn put_charge(page: &mut Page, number: u16, charge: Money) -> Result<(), NoRoom>
    ensures { IsPut (charge_line number charge.mkop) page.old page.new result }
{
    page.put_number(number)?;
    page.put_figure(b" ", charge.mkop, b" mkop\n")
}

pub(crate) fn put_charges<L: Charged>(
    page: &mut Page,
    prices: SettlementPrices,
    lines: &[L],
) -> Result<(), NoRoom>
    ensures { IsPut (flat_map (λ l. charge_line (L.Charged.number l) (L.Charged.charge (settled_of prices) l)) lines.now) page.old page.new result }
{
    for line in lines {
        put_charge(page, line.number_of(), line.charge_at(prices))?;
    }
    Ok(())
}
