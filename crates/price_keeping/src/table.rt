// A table with a place for each key.
ghost use Rattle.std.specs.Prelude.{◌≡◌, length};
ghost use Rattle.price_history.specs.Keys.{span};
ghost use Rattle.price_history.specs.Views.{tallied};
ghost use Rattle.price_keeping.specs.Places.{places_over, kept_in};

use measures::price::Price;

// The price of a key stands at its rank. Memory with fewer places than there are keys is not used.
// The memory is lent, and kept whole: what lies beyond the places is said to stay as it was.
#[derive(Drop)]
pub struct PriceTable<'a> {
    pub(crate) memory: &'a mut [Option<Price>],
    pub(crate) places: usize,
    pub(crate) count: usize,
    ghost placed: { places ≡ places_over (length memory.now) },
    ghost counted: { count ≡ tallied (kept_in places memory.now) span },
}
