// Prices in a list, in the order of their keys.
ghost use Rattle.ordered_list.specs.Listings.{listing};
ghost use Rattle.price_keeping.specs.Counts.{Counted};

use measures::price::Price;
use ordered_list::list::OrderedList;

#[derive(Drop)]
pub struct PriceList<'a> {
    pub(crate) prices: OrderedList<'a, Price>,
    ghost counted: { Counted (listing prices) },
}
