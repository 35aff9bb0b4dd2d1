// Keys that stand in an order.
ghost use Rattle.std.specs.Prelude.{◌≡◌, ℕ};

// Each key has a number of its own, its rank in the order.
pub trait Ranked {
    ghost order: { Self → ℕ };

    fn rank(&self) -> u32
        ensures { result ≡ order self.now };

    ghost apart: { (x y : Self) → order x ≡ order y → x ≡ y };
}
