// Fills a table and a list of prices with entries in a shuffled order, looks each up and strikes each.
// Arguments: how many entries, `table` or `list` for one of the two, and how often each is looked up.
#![tactic(auto)]

use measures::price::Price;
use ordered_list::entry::Entry;
use price_history::history::PriceHistory;
use price_history::key::PriceKey;
use price_history::series::Series;
use price_keeping::keeping::PriceKeeping;
use price_keeping::list::PriceList;
use price_keeping::table::PriceTable;
use std::{env, io};

const RANKS: u32 = 58_080;

// It has no divisor in common with the number of ranks.
const STEP: u64 = 7_919;

// The histories that are filled: cases that the arguments name, which closures would say no plainer.
#[derive(Clone, Copy)]
enum Which {
    Table,
    List,
    Both,
}

// What the arguments ask for.
#[derive(Clone, Copy)]
struct Asked {
    entries: u32,
    which: Which,
    // how often each entry is looked up
    rounds: u32,
}

// How many entries came, were found and went, and how many are left.
#[derive(Clone, Copy)]
struct Counts {
    entered: usize,
    found: usize,
    struck: usize,
    left: usize,
}

// The rank that is the i-th in the shuffled order.
fn shuffled(i: u32) -> u16 {
    (i as u64 * STEP % RANKS as u64) as u16
}

// The key of a rank.
fn key_at(rank: u16) -> Option<PriceKey> {
    match rank {
        0..=23_231 => key_in(Series::MarginalUp, rank, 96),
        23_232..=46_463 => key_in(Series::MarginalDown, rank - 23_232, 96),
        46_464..=52_271 => key_in(Series::LimitUp, rank - 46_464, 24),
        52_272..=58_079 => key_in(Series::LimitDown, rank - 52_272, 24),
        _ => None,
    }
}

// The key at a place in its series, which has so many slots a day.
fn key_in(series: Series, place: u16, slots: u16) -> Option<PriceKey> {
    let day = place.checked_div(slots)?;
    let slot = place.checked_rem(slots)?;
    PriceKey::new(series, day / 121 + 1, day % 121 + 1, slot.checked_add(1)?)
}

// The price of a rank is the rank.
fn enter<K: PriceKeeping>(history: &mut K, rank: u16) -> Option<()> {
    history.enter(key_at(rank)?, Price::new(rank as i64)?).ok()
}

fn finds<K: PriceKeeping>(history: &K, rank: u16) -> bool {
    key_at(rank)
        .and_then(|key| history.price_at(key))
        .is_some_and(|price| price.kop == rank as i32)
}

fn strike<K: PriceKeeping>(history: &mut K, rank: u16) -> Option<Price> {
    history.strike(key_at(rank)?).ok()
}

// How many of the entries are found.
fn find_all<K: PriceKeeping>(history: &K, entries: u32) -> usize {
    (0..entries)
        .filter(|i| finds(history, shuffled(*i)))
        .count()
}

// How many of the entries are struck.
fn strike_all<K: PriceKeeping>(history: &mut K, entries: u32) -> usize {
    (0..entries)
        .filter_map(|i| strike(history, shuffled(i)))
        .count()
}

fn run<K: PriceKeeping>(history: &mut K, asked: Asked) -> Counts {
    for i in 0..asked.entries {
        enter(history, shuffled(i));
    }
    let entered = history.count();
    let mut found = 0;
    for _ in 0..asked.rounds {
        found = find_all(history, asked.entries);
    }
    let struck = strike_all(history, asked.entries);
    Counts {
        entered,
        found,
        struck,
        left: history.count(),
    }
}

// A number that an argument has, or else another.
fn number_or(text: Option<String>, other: u32) -> u32 {
    text.and_then(|text| text.parse().ok()).unwrap_or(other)
}

fn histories_named(name: Option<String>) -> Which {
    match name.as_deref() {
        Some("table") => Which::Table,
        Some("list") => Which::List,
        _ => Which::Both,
    }
}

// All entries, both histories and one look-up for each, unless the arguments say otherwise.
fn arguments(rt: &HostRuntime) -> io::Result<Asked> {
    let mut args = env::args(rt)?;
    args.next();
    let entries = number_or(args.next(), RANKS).min(RANKS);
    let which = histories_named(args.next());
    let rounds = number_or(args.next(), 1);
    Ok(Asked {
        entries,
        which,
        rounds,
    })
}

fn print(rt: &HostRuntime, name: &str, counts: Counts) -> io::Result<()> {
    let Counts {
        entered,
        found,
        struck,
        left,
    } = counts;
    println!(rt; "{name}: {entered} entered, {found} found, {struck} struck, {left} left")
}

fn try_table(rt: &HostRuntime, asked: Asked) -> io::Result<()> {
    let mut places: Vec<Option<Price>> = vec![in rt.alloc(); None; 58_080]?;
    let mut table = PriceTable::over(&mut places);
    print(rt, "table", run(&mut table, asked))
}

fn try_list(rt: &HostRuntime, asked: Asked) -> io::Result<()> {
    let filler = Entry {
        rank: 0,
        value: Price { kop: 0 },
    };
    let mut memory: Vec<Entry<Price>> = vec![in rt.alloc(); filler; 58_080]?;
    let mut list = PriceList::over(&mut memory);
    print(rt, "list", run(&mut list, asked))
}

fn main(rt: HostRuntime) -> io::Result<()> {
    let asked = arguments(&rt)?;
    match asked.which {
        Which::Table => try_table(&rt, asked),
        Which::List => try_list(&rt, asked),
        Which::Both => {
            try_table(&rt, asked)?;
            try_list(&rt, asked)
        }
    }
}
