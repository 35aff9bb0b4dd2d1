// A text cut in two.
ghost use Rattle.std.specs.Prelude.{◌≡◌, Some, None, MatchOption};
ghost use Rattle.text.specs.Cuts.{cut};

// What stands before the first byte `at`, and what stands after it.
pub fn cut_at(text: &[u8], at: u8) -> Option<(&[u8], &[u8])>
    ensures { MatchOption result (cut at text.now ≡ None) (λ p. cut at text.now ≡ Some (p.0.now, p.1.now)) }
{
    let i = text.iter().position(|byte| *byte == at)?;
    Some((&text[..i], &text[i + 1..]))
}
