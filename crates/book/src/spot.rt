// A place of the book, and its number on the shelf.
use sheet::place::Place;

#[derive(Clone, Copy)]
pub(crate) struct Spot {
    pub place: Place,
    pub number: usize,
}
