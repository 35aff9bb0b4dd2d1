// The series of prices that are kept.
ghost use Rattle.std.specs.Prelude.{◌≡◌};
ghost use Rattle.price_history.specs.Slots.{slots_of, first_of};

// Marginal prices are formed for each quarter of an hour, limit prices for each settlement period:
// the highest of its offers up, the lowest of its offers down.
#[derive(Clone, Copy, Debug, PartialEq, Eq, PartialOrd, Ord)]
pub enum Series {
    MarginalUp,
    MarginalDown,
    LimitUp,
    LimitDown,
}

impl Series {
    // How many prices a day has.
    pub(crate) fn slots(self) -> u16
        ensures { result ≡ slots_of self }
    {
        match self {
            Series::MarginalUp | Series::MarginalDown => 96,
            Series::LimitUp | Series::LimitDown => 24,
        }
    }

    // The rank of its first key.
    pub(crate) fn first(self) -> u32
        ensures { result ≡ first_of self }
    {
        match self {
            Series::MarginalUp => 0,
            Series::MarginalDown => 23_232,
            Series::LimitUp => 46_464,
            Series::LimitDown => 52_272,
        }
    }
}
