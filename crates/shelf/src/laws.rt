// What holds of places.
ghost use Rattle.shelf.specs.Laws.{PlacesAreApart};

// The number of periods of a day.
#[tactic(auto, using(crate::proofs::Numbered::places_are_apart))]
pub fn places_are_apart() -> usize
    ensures { PlacesAreApart result }
{
    24
}
