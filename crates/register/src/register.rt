// The register of units.
use crate::party::Party;
use ordered_list::list::OrderedList;

#[derive(Drop)]
pub struct Register<'a> {
    pub(crate) units: OrderedList<'a, Party>,
}
