// A report as far as it has been read.
ghost use Rattle.std.specs.Prelude.{◌≡◌, ◌≤◌, Ok, Err, MatchResult};
ghost use Rattle.sheet_text.specs.Listing.{listing};
ghost use Rattle.sheet_text.specs.Reported.{plain};
ghost use Rattle.sheet_text.specs.Steps.{step, next_stage, most_entries};
ghost use Rattle.sheet_text.specs.declared.draft.Stage.TheVariants.{Period};

use crate::entry::Entry;
use crate::faults::{FaultKind, LineFault};
use crate::fields::Fields;
use crate::lines::{count_line, day_ahead_line, end_line, forced_line, period_line};
use crate::report::Report;
use measures::price::Price;
use measures::volume::PeriodVolume;
use sheet::entries::Entries;
use sheet::lines::{GroupLine, Offer, UnitLine};
use sheet::place::Place;
use sheet::report::Sheet;

pub(crate) const MOST_OFFERS: u32 = 24;

pub(crate) const MOST_UNITS: u32 = 16;

pub(crate) const MOST_GROUPS: u32 = 16;

// What the next line must be, or that none may follow. It is a state, matched with the fields of a line,
// and no table of steps: what may come follows from where the reader stands.
#[derive(Clone, Copy)]
pub(crate) enum Stage {
    Period,
    DayAhead,
    Forced,
    Offers,
    Units,
    Groups,
    End,
    Done,
}

#[derive(Drop)]
pub(crate) struct Draft {
    pub stage: Stage,
    pub report: Report,
}

impl Draft {
    // Nothing has been read: each part of the report is to be replaced.
    pub(crate) fn new() -> Draft
        ensures { result.stage ≡ Period }
    {
        let sheet = Sheet {
            day_ahead: Price::default(),
            forced: PeriodVolume::default(),
            offers: Entries::empty(Offer::default()),
            units: Entries::empty(UnitLine::default()),
            groups: Entries::empty(GroupLine::default()),
        };
        let place = Place {
            zone: 1,
            day: 1,
            period: 1,
        };
        Draft {
            stage: Stage::Period,
            report: Report { place, sheet },
        }
    }

    // Takes the line that is awaited. Gives the number of entries that follow it.
    pub(crate) fn take_line(&mut self, line: u32, fields: Fields<'_>) -> Result<u32, LineFault>
        ensures { MatchResult result
            (λ n. (step self.old.stage (plain self.old.report) line (listing fields.entry) ≡ Ok (plain self.new.report, n))
            × (self.new.stage ≡ next_stage self.old.stage) × (n ≤ most_entries self.old.stage))
            (λ e. step self.old.stage (plain self.old.report) line (listing fields.entry) ≡ Err e) }
    {
        let (next, count) = match (self.stage, fields) {
            (Stage::Period, Fields::Four(keyword, zone, day, period)) => {
                self.report.place = period_line(line, keyword, zone, day, period)?;
                (Stage::DayAhead, 0)
            }
            (Stage::DayAhead, Fields::Three(keyword, price, unit)) => {
                self.report.sheet.day_ahead = day_ahead_line(line, keyword, price, unit)?;
                (Stage::Forced, 0)
            }
            (Stage::Forced, Fields::Four(keyword, volume, unit, span)) => {
                self.report.sheet.forced = forced_line(line, keyword, volume, unit, span)?;
                (Stage::Offers, 0)
            }
            (Stage::Offers, Fields::Two(keyword, count)) => {
                let count = count_line(line, keyword, count, b"OFFERS", MOST_OFFERS)?;
                (Stage::Units, count)
            }
            (Stage::Units, Fields::Two(keyword, count)) => {
                let count = count_line(line, keyword, count, b"UNITS", MOST_UNITS)?;
                (Stage::Groups, count)
            }
            (Stage::Groups, Fields::Two(keyword, count)) => {
                let count = count_line(line, keyword, count, b"GROUPS", MOST_GROUPS)?;
                (Stage::End, count)
            }
            (Stage::End, Fields::One(keyword)) => {
                end_line(line, keyword)?;
                (Stage::Done, 0)
            }
            _ => return Err(FaultKind::Layout.at(line, 0)),
        };
        self.stage = next;
        Ok(count)
    }
}
