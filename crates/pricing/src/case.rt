// What a settlement period is priced from.
use sheet::place::Place;
use sheet::report::Sheet;

// A sheet, its place, and a history of prices.
#[derive_where(Clone, Copy)]
pub(crate) struct Case<'a, H> {
    pub(crate) history: &'a H,
    pub(crate) place: Place,
    pub(crate) sheet: &'a Sheet,
}
