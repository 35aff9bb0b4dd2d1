// The entries of a sheet's lists.
ghost use Rattle.std.specs.Prelude.{◌≡◌, ℕ, List, [], ◌∷◌, codes};
ghost use Rattle.std.specs.Fmt.{signed_decimal};
ghost use Rattle.text_buffer.specs.Texts.{IsPut};
ghost use Rattle.sheet_writer.specs.Rendered.{line, offer_fields, unit_fields, group_fields};
ghost use Rattle.sheet_writer.specs.Letters.{direction_letter, position_letter, constraint_letter};

use crate::lines::{Page, put_price, put_start, put_volume};
use measures::price::Price;
use sheet::lines::{Direction, GroupLine, Offer, Position, UnitLine};
use text_buffer::buffer::NoRoom;

// Letters are put among other bytes, which a `Display` would not give.
fn direction_letter(direction: Direction) -> &'static [u8]
    ensures { result.now ≡ direction_letter direction }
{
    match direction {
        Direction::Up => b"U",
        Direction::Down => b"D",
    }
}

fn position_letter(position: Position) -> &'static [u8]
    ensures { result.now ≡ position_letter position }
{
    match position {
        Position::Surplus => b"+",
        Position::Shortage => b"-",
    }
}

fn constraint_letter(constrained: bool) -> &'static [u8]
    ensures { result.now ≡ constraint_letter constrained }
{
    if constrained { b"C" } else { b"-" }
}

// `price kop/MWh letter`
fn put_terms(page: &mut Page, price: Price, letter: &[u8]) -> Result<(), NoRoom>
    ensures { IsPut (line (signed_decimal price.kop ∷ codes "kop/MWh" ∷ letter.now ∷ [])) page.old page.new result }
{
    put_price(page, price)?;
    page.put(b" ")?;
    page.put(letter)?;
    page.put(b"\n")
}

// An entry has a line of its own.
pub(crate) trait EntryText {
    ghost fields: { Self → List (List ℕ) };

    fn put_on(&self, page: &mut Page) -> Result<(), NoRoom>
        ensures { IsPut (line (fields self.now)) page.old page.new result };
}

// `quarter U|D unit volume kWh price kop/MWh C|-`
impl EntryText for Offer {
    ghost fields = { offer_fields };

    fn put_on(&self, page: &mut Page) -> Result<(), NoRoom> {
        put_start(page, self.quarter, direction_letter(self.direction))?;
        page.put_number(self.unit)?;
        page.put_figure(b" ", self.volume.kwh, b" kWh ")?;
        put_terms(page, self.price, constraint_letter(self.constrained))
    }
}

// `unit U|D energy kWh`
impl EntryText for UnitLine {
    ghost fields = { unit_fields };

    fn put_on(&self, page: &mut Page) -> Result<(), NoRoom> {
        put_volume(
            page,
            self.unit,
            direction_letter(self.direction),
            self.energy,
        )
    }
}

// `party +|- imbalance kWh`
impl EntryText for GroupLine {
    ghost fields = { group_fields };

    fn put_on(&self, page: &mut Page) -> Result<(), NoRoom> {
        put_volume(
            page,
            self.party,
            position_letter(self.position),
            self.imbalance,
        )
    }
}
