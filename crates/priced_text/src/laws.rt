// How long what is printed can be.
ghost use Rattle.priced_text.specs.Laws.{LongestPriced, LongestRefusal};

// No priced text of a sheet is longer.
pub const LONGEST: usize = 935;

// The length of the longest line of a refusal.
pub const LONGEST_REFUSAL: usize = 39;

#[tactic(auto, using(crate::proofs::AnyCase::longest_priced))]
pub fn longest_priced_text() -> usize
    ensures { LongestPriced result }
{
    LONGEST
}

#[tactic(auto, using(crate::proofs::Refused::longest_refusal))]
pub fn longest_refusal_line() -> usize
    ensures { LongestRefusal result }
{
    LONGEST_REFUSAL
}
