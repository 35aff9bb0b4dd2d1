// The lines of a sheet.
use measures::price::Price;
use measures::volume::Volume;

// Balancing energy raises what a zone has, or lowers it.
#[derive(Clone, Copy, Debug, Default, PartialEq, Eq)]
pub enum Direction {
    #[default]
    Up,
    Down,
}

// An imbalance is a surplus or a shortage against the schedule.
#[derive(Clone, Copy, Debug, Default, PartialEq, Eq)]
pub enum Position {
    #[default]
    Surplus,
    Shortage,
}

// An activated offer of balancing energy, for one quarter of the settlement period.
#[derive(Clone, Copy, Debug, Default, PartialEq, Eq)]
pub struct Offer {
    pub quarter: u16,
    pub direction: Direction,
    pub unit: u16,
    pub volume: Volume,
    pub price: Price,
    // accepted to relieve a system constraint
    pub constrained: bool,
}

// The balancing energy that a unit gave in the whole settlement period.
#[derive(Clone, Copy, Debug, Default, PartialEq, Eq)]
pub struct UnitLine {
    pub unit: u16,
    pub direction: Direction,
    pub energy: Volume,
}

// The imbalance of a balance group, whose party answers for it, in the whole settlement period.
#[derive(Clone, Copy, Debug, Default, PartialEq, Eq)]
pub struct GroupLine {
    pub party: u16,
    pub position: Position,
    pub imbalance: Volume,
}
