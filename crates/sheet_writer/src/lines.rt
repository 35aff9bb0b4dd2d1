// The lines of a sheet.
ghost use Rattle.std.specs.Prelude.{◌≡◌, [], ◌∷◌, ◌++◌, codes, decimal};
ghost use Rattle.std.specs.Fmt.{signed_decimal};
ghost use Rattle.text_buffer.specs.Texts.{IsPut};
ghost use Rattle.sheet_writer.specs.Rendered.{spaced, line, period_fields, day_ahead_fields, forced_fields};

use measures::price::Price;
use measures::volume::{PeriodVolume, Volume};
use sheet::place::Place;
use text_buffer::buffer::{NoRoom, TextBuffer};

// Memory for the text of any sheet.
pub(crate) type Page = TextBuffer<6556>;

// Lines are put part by part, since what `write!` promises does not say when one does not fit.

// `PERIOD zone day period`
pub(crate) fn put_period(page: &mut Page, place: Place) -> Result<(), NoRoom>
    ensures { IsPut (line (period_fields place.zone place.day place.period)) page.old page.new result }
{
    page.put_figure(b"PERIOD ", place.zone, b" ")?;
    page.put_number(place.day)?;
    page.put_figure(b" ", place.period, b"\n")
}

// `price kop/MWh`
pub(crate) fn put_price(page: &mut Page, price: Price) -> Result<(), NoRoom>
    ensures { IsPut (spaced (signed_decimal price.kop ∷ codes "kop/MWh" ∷ [])) page.old page.new result }
{
    page.put_number(price.kop)?;
    page.put(b" kop/MWh")
}

// `DAM price kop/MWh`
pub(crate) fn put_day_ahead(page: &mut Page, price: Price) -> Result<(), NoRoom>
    ensures { IsPut (line (day_ahead_fields price)) page.old page.new result }
{
    page.put(b"DAM ")?;
    put_price(page, price)?;
    page.put(b"\n")
}

// `FORCED volume kWh H`
pub(crate) fn put_forced(page: &mut Page, volume: PeriodVolume) -> Result<(), NoRoom>
    ensures { IsPut (line (forced_fields volume)) page.old page.new result }
{
    page.put_figure(b"FORCED ", volume.kwh, b" kWh H\n")
}

// The number and the letter that an entry begins with.
pub(crate) fn put_start(page: &mut Page, number: u16, letter: &[u8]) -> Result<(), NoRoom>
    ensures { IsPut (decimal number ++ (codes " " ++ (letter.now ++ codes " "))) page.old page.new result }
{
    page.put_number(number)?;
    page.put(b" ")?;
    page.put(letter)?;
    page.put(b" ")
}

// `number letter volume kWh`
pub(crate) fn put_volume(
    page: &mut Page,
    number: u16,
    letter: &[u8],
    volume: Volume,
) -> Result<(), NoRoom>
    ensures { IsPut (line (decimal number ∷ letter.now ∷ decimal volume.kwh ∷ codes "kWh" ∷ [])) page.old page.new result }
{
    put_start(page, number, letter)?;
    page.put_number(volume.kwh)?;
    page.put(b" kWh\n")
}
