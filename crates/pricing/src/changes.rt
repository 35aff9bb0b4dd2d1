// The prices of a period when its sheet is changed.
ghost use Rattle.std.specs.Prelude.{map};
ghost use Rattle.price_history.specs.Keys.{rank_of};
ghost use Rattle.std.specs.List.Sorted.{IsStrictlyIncreasing};

use crate::change::PriceChange;

// In the order of their keys, of which no two are the same.
#[derive(Clone, Copy)]
pub struct PriceChanges {
    pub list: [PriceChange; 10],
    ghost ordered: { IsStrictlyIncreasing (map (λ c. rank_of c.key) list) },
}
