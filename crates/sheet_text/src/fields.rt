// The fields of a line.
ghost use Rattle.std.specs.Prelude.{◌≡◌};
ghost use Rattle.text.specs.Cuts.{parts};
ghost use Rattle.sheet_text.specs.Listing.{listing, usual};
ghost use Rattle.sheet_text.specs.Parting.{ArePartsOf};

// The fields by their number, where a line of a sheet can have so many.
#[derive(Clone, Copy)]
pub(crate) enum Fields<'a> {
    One(&'a [u8]),
    Two(&'a [u8], &'a [u8]),
    Three(&'a [u8], &'a [u8], &'a [u8]),
    Four(&'a [u8], &'a [u8], &'a [u8], &'a [u8]),
    Eight(&'a [u8], &'a [u8], &'a [u8], &'a [u8], &'a [u8], &'a [u8], &'a [u8], &'a [u8]),
    Other,
}

// The first nine parts of a line; no line of a sheet has so many. One space parts two fields.
fn first_parts(line: &[u8]) -> [Option<&[u8]>; 9]
    ensures { ArePartsOf (parts 32 line.now) result }
{
    let mut parts = line.split(|byte| *byte == b' ');
    std::array::from_fn(|_| parts.next())
}

pub(crate) fn fields_of(line: &[u8]) -> Fields<'_>
    ensures { listing result ≡ usual (parts 32 line.now) }
{
    match first_parts(line) {
        [Some(a), None, ..] => Fields::One(a),
        [Some(a), Some(b), None, ..] => Fields::Two(a, b),
        [Some(a), Some(b), Some(c), None, ..] => Fields::Three(a, b, c),
        [Some(a), Some(b), Some(c), Some(d), None, ..] => Fields::Four(a, b, c, d),
        [
            Some(a),
            Some(b),
            Some(c),
            Some(d),
            Some(e),
            Some(f),
            Some(g),
            Some(h),
            None,
        ] => Fields::Eight(a, b, c, d, e, f, g, h),
        _ => Fields::Other,
    }
}
