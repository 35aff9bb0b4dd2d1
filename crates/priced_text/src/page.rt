// The text of a priced period.
ghost use Rattle.std.specs.Prelude.{◌≡◌};
ghost use Rattle.sheet.specs.Figures.{figures_of};
ghost use Rattle.pricing.specs.Figures.{settled_of};
ghost use Rattle.text_buffer.specs.Texts.{IsPut};
ghost use Rattle.priced_text.specs.Priced.{prices_text, charges_text, units_text, groups_text, page_text};

use crate::lines::{Page, put_charges, put_count, put_money, put_price, put_state};
use charges::accounts::{groups_account, units_account};
use charges::lines::Charged;
use charges::totals::zone_totals;
use measures::money::Money;
use offers::span::State;
use pricing::prices::SettlementPrices;
use sheet::report::Sheet;
use text_buffer::buffer::NoRoom;

// How many lines are charged, each charge, and the account that balances them.
fn put_charged<L: Charged>(
    page: &mut Page,
    name: &[u8],
    prices: SettlementPrices,
    lines: &[L],
    account: &[u8],
    sum: Money,
) -> Result<(), NoRoom>
    ensures { IsPut (charges_text name.now L.Charged.number (L.Charged.charge (settled_of prices)) lines.now account.now sum.mkop) page.old page.new result }
{
    put_count(page, name, lines.len())?;
    put_charges(page, prices, lines)?;
    put_money(page, account, sum)
}

// A period with its state, the prices that it is settled at and its sheet.
#[derive(Clone, Copy)]
pub(crate) struct PricedPeriod<'a> {
    pub(crate) state: State,
    pub(crate) prices: SettlementPrices,
    pub(crate) sheet: &'a Sheet,
}

impl<'a> PricedPeriod<'a> {
    fn put_prices(&self, page: &mut Page) -> Result<(), NoRoom>
        ensures { IsPut (prices_text (settled_of self.now.prices)) page.old page.new result }
    {
        put_price(page, b"IMSP ", self.prices.imsp)?;
        put_price(page, b"UP ", self.prices.up)?;
        put_price(page, b"DOWN ", self.prices.down)
    }

    fn put_units(&self, page: &mut Page) -> Result<(), NoRoom>
        ensures { IsPut (units_text (settled_of self.now.prices) (figures_of self.now.sheet.now)) page.old page.new result }
    {
        let lines = self.sheet.units.as_slice();
        let sum = units_account(self.prices, zone_totals(self.sheet));
        put_charged(page, b"UNITS ", self.prices, lines, b"A-A ", sum)
    }

    fn put_groups(&self, page: &mut Page) -> Result<(), NoRoom>
        ensures { IsPut (groups_text (settled_of self.now.prices) (figures_of self.now.sheet.now)) page.old page.new result }
    {
        let lines = self.sheet.groups.as_slice();
        let sum = groups_account(self.prices, zone_totals(self.sheet));
        put_charged(page, b"GROUPS ", self.prices, lines, b"A-B ", sum)
    }

    pub(crate) fn put_on(&self, page: &mut Page) -> Result<(), NoRoom>
        ensures { IsPut (page_text self.now.state (settled_of self.now.prices) (figures_of self.now.sheet.now)) page.old page.new result }
    {
        put_state(page, self.state)?;
        self.put_prices(page)?;
        self.put_units(page)?;
        self.put_groups(page)?;
        page.put(b"END\n")
    }
}
