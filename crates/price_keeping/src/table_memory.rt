// How a table is made.
ghost use Rattle.std.specs.Prelude.{◌≡◌, ℕ, ◌≤◌, length, drop, None};
ghost use Rattle.price_keeping.specs.Changes.{fresh_view};
ghost use Rattle.price_keeping.specs.Places.{places_over, kept_in, memory_answer};
ghost use Rattle.price_keeping.specs.Tables.{table_view, beyond};

use crate::refusal::MemoryRefusal;
use crate::table::PriceTable;
use measures::price::Price;

const PLACES: usize = 58_080;

// How many places a table has over memory of a length.
fn places_over(length: usize) -> usize
    ensures { result ≡ places_over length }
{
    if length < PLACES { 0 } else { PLACES }
}

fn clear(memory: &mut [Option<Price>], places: usize)
    requires { places ≤ length memory.old }
    ensures emptied { (rank : ℕ) → kept_in places memory.new rank ≡ None }
    ensures beyond { drop places memory.new ≡ drop places memory.old }
{
    memory[..places].fill(None);
}

impl<'a> PriceTable<'a> {
    // Whether the memory has a place for each key.
    pub fn check_memory(memory: &[Option<Price>]) -> Result<(), MemoryRefusal>
        ensures { result ≡ memory_answer (length memory.now) }
    {
        if memory.len() < PLACES {
            return Err(MemoryRefusal::Short);
        }
        Ok(())
    }

    // An empty table, whatever the memory held. Over short memory it has no places.
    pub fn over(memory: &'a mut [Option<Price>]) -> PriceTable<'a>
        ensures view { table_view result ≡ fresh_view (places_over (length memory.old)) }
        ensures beyond { beyond result ≡ drop (places_over (length memory.old)) memory.old }
    {
        let places = places_over(memory.len());
        clear(memory, places);
        PriceTable {
            memory,
            places,
            count: 0,
        }
    }
}
