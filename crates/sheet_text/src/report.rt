// A sheet with the place that it belongs to.
use sheet::place::Place;
use sheet::report::Sheet;

#[derive(Clone, Copy)]
pub struct Report {
    pub place: Place,
    pub sheet: Sheet,
}
