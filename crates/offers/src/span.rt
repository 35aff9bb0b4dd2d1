// The times that a sheet's offers are summed over.

#[derive(Clone, Copy, PartialEq, Eq, Debug)]
pub enum Span {
    // a quarter of the settlement period, 1 to 4
    Quarter(u16),
    // the whole settlement period
    Period,
}

// The state of a zone: too little energy, too much, or neither.
#[derive(Clone, Copy, PartialEq, Eq, Debug)]
pub enum State {
    Deficit,
    Surplus,
    Balanced,
}
