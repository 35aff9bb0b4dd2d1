// The days of a month.
ghost use Rattle.std.specs.Prelude.{◌≡◌};
ghost use Rattle.measures.specs.Calendar.{decade_of, decade_number};

// A part of a month: days 1 to 10, 11 to 20, or 21 to the last.
#[derive(Clone, Copy, Debug, PartialEq, Eq, PartialOrd, Ord)]
pub enum Decade {
    First,
    Second,
    Third,
}

impl Decade {
    // The decade of a day, which no month has past the 31st.
    pub fn of_day(day: u16) -> Option<Decade>
        ensures { result ≡ decade_of day }
    {
        match day {
            1..=10 => Some(Decade::First),
            11..=20 => Some(Decade::Second),
            21..=31 => Some(Decade::Third),
            _ => None,
        }
    }
}

// Its number in the month, 1 to 3.
impl From<Decade> for u16 {
    ghost from_gives = { λ decade n. n ≡ decade_number decade };

    fn from(decade: Decade) -> u16 {
        match decade {
            Decade::First => 1,
            Decade::Second => 2,
            Decade::Third => 3,
        }
    }
}
