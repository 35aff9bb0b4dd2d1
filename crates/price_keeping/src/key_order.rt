// The order of price keys in a list.
ghost use Rattle.price_history.specs.Keys.{rank_of};
ghost use Rattle.price_history.proofs.Apart.{rank_apart};

use ordered_list::ranked::Ranked;
use price_history::key::PriceKey;

// A price key, which stands at its rank.
#[derive(Clone, Copy)]
pub(crate) struct ListKey {
    pub(crate) key: PriceKey,
}

impl Ranked for ListKey {
    ghost order = { λ x. rank_of x.key };

    ghost apart = { λ x y e i. record { key = rank_apart x.key y.key e i } };

    fn rank(&self) -> u32 {
        self.key.rank()
    }
}
