// The text of a sheet, on a page.
ghost use Rattle.std.specs.Prelude.{◌≡◌};
ghost use Rattle.std.specs.List.{flat_map};
ghost use Rattle.sheet.specs.Figures.{figures_of};
ghost use Rattle.text_buffer.specs.Texts.{IsPut};
ghost use Rattle.sheet_writer.specs.Rendered.{line, count_fields, list_text, head_text, text_of_sheet};

use crate::entries::EntryText;
use crate::lines::{Page, put_day_ahead, put_forced, put_period};
use sheet::place::Place;
use sheet::report::Sheet;
use text_buffer::buffer::NoRoom;

// Place and sheet come apart, since a sheet on the shelf does not hold its place.
fn put_head(page: &mut Page, place: Place, sheet: &Sheet) -> Result<(), NoRoom>
    ensures { IsPut (head_text place.zone place.day place.period (figures_of sheet.now)) page.old page.new result }
{
    put_period(page, place)?;
    put_day_ahead(page, sheet.day_ahead)?;
    put_forced(page, sheet.forced)
}

// A section's keyword with the number of its entries.
fn put_count(page: &mut Page, keyword: &[u8], count: usize) -> Result<(), NoRoom>
    ensures { IsPut (line (count_fields keyword.now count)) page.old page.new result }
{
    page.put(keyword)?;
    page.put_figure(b" ", count, b"\n")
}

fn put_entries<L: EntryText>(page: &mut Page, entries: &[L]) -> Result<(), NoRoom>
    ensures { IsPut (flat_map (λ x. line (L.EntryText.fields x)) entries.now) page.old page.new result }
{
    for entry in entries {
        entry.put_on(page)?;
    }
    Ok(())
}

fn put_list<L: EntryText>(page: &mut Page, keyword: &[u8], entries: &[L]) -> Result<(), NoRoom>
    ensures { IsPut (list_text keyword.now L.EntryText.fields entries.now) page.old page.new result }
{
    put_count(page, keyword, entries.len())?;
    put_entries(page, entries)
}

#[tactic(auto, unfolding(crate::specs::Rendered::rendered))]
pub(crate) fn put_sheet(page: &mut Page, place: Place, sheet: &Sheet) -> Result<(), NoRoom>
    ensures { IsPut (text_of_sheet place sheet.now) page.old page.new result }
{
    put_head(page, place, sheet)?;
    put_list(page, b"OFFERS", sheet.offers.as_slice())?;
    put_list(page, b"UNITS", sheet.units.as_slice())?;
    put_list(page, b"GROUPS", sheet.groups.as_slice())?;
    page.put(b"END\n")
}
