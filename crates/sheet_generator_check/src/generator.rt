// Sheets with figures within their limits.
ghost use Rattle.std.specs.Prelude.{◌<◌, ◌≤◌, ℕ};

use crate::numbers::Numbers;
use measures::price::Price;
use measures::volume::{PeriodVolume, Volume};
use sheet::entries::Entries;
use sheet::lines::{Direction, GroupLine, Offer, Position, UnitLine};
use sheet::place::Place;
use sheet::report::Sheet;

pub(crate) fn any_place(numbers: &mut Numbers) -> Place {
    let zone = 1 + numbers.below(2) as u16;
    let day = 1 + numbers.below(31) as u16;
    let period = 1 + numbers.below(24) as u16;
    Place { zone, day, period }
}

fn any_direction(numbers: &mut Numbers) -> Direction {
    if numbers.below(2) == 0 {
        Direction::Up
    } else {
        Direction::Down
    }
}

fn any_price(numbers: &mut Numbers) -> Price {
    let kop = numbers.below(20_000_001) as i32 - 10_000_000;
    Price { kop }
}

fn any_volume(numbers: &mut Numbers) -> Volume {
    let kwh = numbers.below(1_000_001);
    Volume { kwh }
}

fn any_offer(numbers: &mut Numbers) -> Offer {
    let kwh = 1 + numbers.below(1_000_000);
    Offer {
        quarter: 1 + numbers.below(4) as u16,
        direction: any_direction(numbers),
        unit: 1 + numbers.below(999) as u16,
        volume: Volume { kwh },
        price: any_price(numbers),
        constrained: numbers.below(2) == 0,
    }
}

// The index makes the numbers of the units rise.
fn any_unit(numbers: &mut Numbers, index: u16) -> UnitLine
    requires { index < 16 }
{
    UnitLine {
        unit: 62 * index + 1 + numbers.below(62) as u16,
        direction: any_direction(numbers),
        energy: any_volume(numbers),
    }
}

// The index makes the numbers of the parties rise. No imbalance is a surplus.
fn any_group(numbers: &mut Numbers, index: u16) -> GroupLine
    requires { index < 16 }
{
    let imbalance = any_volume(numbers);
    let position = if imbalance.kwh == 0 || numbers.below(2) == 0 {
        Position::Surplus
    } else {
        Position::Shortage
    };
    GroupLine {
        party: 4 * index + 1 + numbers.below(4) as u16,
        position,
        imbalance,
    }
}

// A list of any number of entries, each made with its index.
fn any_entries<T: Copy, const N: usize, F: Fn(&mut Numbers, u16) -> T>(
    numbers: &mut Numbers,
    any_entry: F,
) -> Entries<T, N>
    requires few { (0 < N) × (N ≤ 24) }
    requires callable { (x : _) (i : ℕ) → i < N → F.pre any_entry x i }
{
    let mut entries = Entries::empty(any_entry(numbers, 0));
    for index in 0..numbers.below(N as u32 + 1) as u16 {
        let _ = entries.push(any_entry(numbers, index));
    }
    entries
}

pub(crate) fn any_sheet(numbers: &mut Numbers) -> Sheet {
    let kwh = numbers.below(10_000_001);
    Sheet {
        day_ahead: any_price(numbers),
        forced: PeriodVolume { kwh },
        offers: any_entries(numbers, |numbers: &mut Numbers, _: u16| any_offer(numbers)),
        units: any_entries(numbers, any_unit),
        groups: any_entries(numbers, any_group),
    }
}
