// Shifting the entries of places.
ghost use Rattle.std.specs.Prelude.{◌≡◌, ◌+◌, ◌-◌, ◌<◌, ◌≤◌, length, take};
ghost use Rattle.std.specs.List.{insert, remove};

// Puts an entry at a place among the first `count`, and each later one a place on.
pub(crate) fn insert_at<E: Copy>(places: &mut [E], count: usize, at: usize, entry: E)
    requires { (count < length places.old) × (at ≤ count) }
    ensures { take (count + 1) places.new ≡ insert (take count places.old) at entry }
{
    let shifted = &mut places[at..count + 1];
    shifted.rotate_right(1);
    places[at] = entry;
}

// Takes an entry out from among the first `count`, and puts each later one a place back.
pub(crate) fn remove_at<E: Copy>(places: &mut [E], count: usize, at: usize)
    requires { (count ≤ length places.old) × (at < count) }
    ensures { take (count - 1) places.new ≡ remove (take count places.old) at }
{
    let shifted = &mut places[at..count];
    shifted.rotate_left(1);
}
