// Numbers in their order.
ghost use Rattle.std.specs.Prelude.{◌≡◌, ◌≤◌};
ghost use mathlib.Core.HLevel.{is_prop→PathP};
ghost use Rattle.std.proofs.Math.Bridge.{le_prop};

use crate::number::Number;
use ordered_list::ranked::Ranked;

impl<const MOST: u16> Ranked for Number<MOST> {
    ghost order = { λ n. n.number };

    ghost apart = { λ x y e i. record {
      number = e i;
      from = is_prop→PathP (λ j. 1 ≤ e j) (λ j. le_prop) x.from y.from i;
      to = is_prop→PathP (λ j. e j ≤ MOST) (λ j. le_prop) x.to y.to i;
    } };

    fn rank(&self) -> u32 {
        self.number as u32
    }
}
