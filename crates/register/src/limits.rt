// Numbers that are taken where they are within their limits.
ghost use Rattle.std.specs.Prelude.{◌≡◌, if◌then◌else◌, Some, None};
ghost use Rattle.std.specs.Option.{option_map};
ghost use Rattle.register.specs.Limits.{is_within};

use crate::number::Number;

impl<const MOST: u16> Number<MOST> {
    pub(crate) fn new(number: u16) -> Option<Number<MOST>>
        ensures { option_map (λ n. n.number) result ≡ (if is_within MOST number then Some number else None) }
    {
        if (1..=MOST).contains(&number) {
            Some(Number { number })
        } else {
            None
        }
    }
}
