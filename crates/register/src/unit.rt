// Units.
use crate::number::Number;

// The number of a unit.
pub(crate) type UnitNumber = Number<999>;
