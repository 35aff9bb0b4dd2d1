// Parties.
use crate::number::Number;

// The number of a party.
pub type Party = Number<64>;
