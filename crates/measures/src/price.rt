// Prices of electricity.
ghost use Rattle.std.specs.Prelude.{◌≤◌, unsigned_abs};

// A price, in kopecks per MWh.
#[derive(Clone, Copy, Debug, PartialEq, Eq, PartialOrd, Ord)]
pub struct Price {
    pub kop: i32,
    ghost limited: { unsigned_abs kop ≤ 10000000 },
}
