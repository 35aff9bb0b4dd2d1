// What stands on a place of the shelf.
ghost use Rattle.std.specs.Prelude.{◌≡◌, is_some};
ghost use Rattle.sheet.specs.Figures.{figures_lent};
ghost use Rattle.shelf.specs.Rows.{sheet_on};

use crate::limits::is_sheet;
use sheet::report::Sheet;

// Plain data, which other hands may have changed.
pub type Row = Option<Sheet>;

// The sheet of a row. A row that holds a figure or a count beyond its limit is one without a sheet.
pub fn sheet_on(row: &Row) -> Option<&Sheet>
    ensures sheet { figures_lent result ≡ sheet_on row.now }
    ensures found { is_some result ≡ is_some (sheet_on row.now) }
{
    row.as_ref().filter(|sheet| is_sheet(sheet))
}
