// Sheets are filed, replaced and withdrawn.
ghost use Rattle.std.specs.Prelude.{◌≡◌, ◌<◌, not, [], ◌∷◌, ◌++◌, length, is_ok, IfOk, if◌then◌else◌, slice_set};
ghost use Rattle.std.specs.Option.{option_map};
ghost use Rattle.sheet.specs.Figures.{figures_of, figures_lent};
ghost use Rattle.sheet_text.specs.Reading.{reading};
ghost use Rattle.sheet_text.specs.Reported.{plain};
ghost use Rattle.register.specs.Rolls.{Roll, roll};
ghost use Rattle.shelf.specs.Packed.{packed_sheet};
ghost use Rattle.price_changes.specs.Changed.{changed_view, overfull};
ghost use Rattle.book.specs.Checks.{verdict};
ghost use Rattle.book.specs.Found.{found_in, changes_of};
ghost use Rattle.book.specs.Memory.{standing, memory, place_of, found, number_in};
ghost use Rattle.book.specs.Filing.{report_checks, put_verdict, put_report, put_answer, put_after, withdraw_answer, withdraw_after};
ghost use Rattle.book.specs.declared.putting.Putting.TheVariants.{Filing as filing, Replacing as replacing};
ghost use Rattle.book.specs.declared.refusal.BookRefusal.TheVariants.{HistoryFull};

use crate::book::Book;
use crate::putting::Putting;
use crate::refusal::BookRefusal;
use crate::registered::knows_units;
use crate::spot::Spot;
use crate::stated::StatedPlace;
use price_changes::changing::change_prices;
use price_history::history::PriceHistory;
use price_keeping::keeping::PriceKeeping;
use pricing::changing::price_changes;
use register::register::Register;
use sheet::report::Sheet;
use sheet_text::reading::read;
use sheet_text::report::Report;
use shelf::packing::packed_sheet;
use shelf::rows::{Row, sheet_on};

// Puts another sheet at a place, or none, and changes its prices in the history.
fn put_sheet<K: PriceKeeping>(
    history: &mut K,
    shelf: &mut [Row],
    spot: Spot,
    new: Option<&Sheet>,
) -> Result<(), BookRefusal>
    requires { spot.number < length shelf.old }
    ensures answer { result ≡ verdict ((overfull (changed_view (K.PriceHistory.view history.old) (changes_of shelf.old (found spot) (figures_lent new.entry))), HistoryFull) ∷ []) (tt {0}) }
    ensures history { K.PriceHistory.view history.new ≡ (if is_ok result then changed_view (K.PriceHistory.view history.old) (changes_of shelf.old (found spot) (figures_lent new.entry)) else K.PriceHistory.view history.old) }
    ensures rows { shelf.new ≡ (if is_ok result then slice_set shelf.old spot.number (option_map packed_sheet (figures_lent new.entry)) else shelf.old) }
{
    let changes = price_changes(spot.place, sheet_on(&shelf[spot.number]), new);
    change_prices(history, &changes)?;
    shelf[spot.number] = new.map(packed_sheet);
    Ok(())
}

// History, register and shelf are lent, so each call takes those that it uses.
impl Book {
    // The place of a report whose units are known and whose decade is open.
    fn place_for(
        &self,
        register: &Register<'_>,
        long: usize,
        report: &Report,
    ) -> Result<Spot, BookRefusal>
        ensures answer { found_in result ≡ verdict (report_checks (standing self.now) (roll register.now) long (place_of (plain report.now)) (figures_of report.now.sheet)) (place_of (plain report.now), number_in (standing self.now) (place_of (plain report.now))) }
        ensures within { IfOk result (λ s. s.number < long) }
    {
        let place = StatedPlace::from(report.place);
        let spot = self.find_place(long, place)?;
        if !knows_units(register, &report.sheet) {
            return Err(BookRefusal::UnitUnknown);
        }
        if self.is_closed(place.day) {
            return Err(BookRefusal::DecadeClosed);
        }
        Ok(spot)
    }

    fn put_report<K: PriceKeeping>(
        &mut self,
        how: Putting,
        history: &mut K,
        register: &Register<'_>,
        shelf: &mut [Row],
        report: &Report,
    ) -> Result<(), BookRefusal>
        ensures answer { result ≡ put_verdict how (memory self.old (K.PriceHistory.view history.old) (roll register.now) shelf.old) (plain report.now) }
        ensures after { memory self.new (K.PriceHistory.view history.new) (roll register.now) shelf.new ≡ put_report how (memory self.old (K.PriceHistory.view history.old) (roll register.now) shelf.old) (plain report.now) }
    {
        let spot = self.place_for(register, shelf.len(), report)?;
        let in_force = sheet_on(&shelf[spot.number]).is_some();
        how.check(in_force)?;
        put_sheet(history, shelf, spot, Some(&report.sheet))
    }

    // Puts a sheet in force, and enters the prices that form on it.
    pub fn file<K: PriceKeeping>(
        &mut self,
        history: &mut K,
        register: &Register<'_>,
        shelf: &mut [Row],
        text: &[u8],
    ) -> Result<(), BookRefusal>
        ensures answer { result ≡ put_answer filing (memory self.old (K.PriceHistory.view history.old) (roll register.now) shelf.old) (reading text.now) }
        ensures after { memory self.new (K.PriceHistory.view history.new) (roll register.now) shelf.new ≡ put_after filing (memory self.old (K.PriceHistory.view history.old) (roll register.now) shelf.old) (reading text.now) }
    {
        let report = read(text)?;
        self.put_report(Putting::Filing, history, register, shelf, &report)
    }

    // Puts a sheet in the place of the one in force, whose prices are struck.
    pub fn replace<K: PriceKeeping>(
        &mut self,
        history: &mut K,
        register: &Register<'_>,
        shelf: &mut [Row],
        text: &[u8],
    ) -> Result<(), BookRefusal>
        ensures answer { result ≡ put_answer replacing (memory self.old (K.PriceHistory.view history.old) (roll register.now) shelf.old) (reading text.now) }
        ensures after { memory self.new (K.PriceHistory.view history.new) (roll register.now) shelf.new ≡ put_after replacing (memory self.old (K.PriceHistory.view history.old) (roll register.now) shelf.old) (reading text.now) }
    {
        let report = read(text)?;
        self.put_report(Putting::Replacing, history, register, shelf, &report)
    }

    // Takes the sheet at a place out of force, and strikes its prices.
    pub fn withdraw<K: PriceKeeping>(
        &mut self,
        history: &mut K,
        shelf: &mut [Row],
        place: StatedPlace,
    ) -> Result<(), BookRefusal>
        ensures answer { (roll : Roll) → result ≡ withdraw_answer (memory self.old (K.PriceHistory.view history.old) roll shelf.old) place }
        ensures after { (roll : Roll) → memory self.new (K.PriceHistory.view history.new) roll shelf.new ≡ withdraw_after (memory self.old (K.PriceHistory.view history.old) roll shelf.old) place }
    {
        let spot = self.find_place(shelf.len(), place)?;
        if self.is_closed(place.day) {
            return Err(BookRefusal::DecadeClosed);
        }
        if sheet_on(&shelf[spot.number]).is_none() {
            return Err(BookRefusal::NoSheet);
        }
        put_sheet(history, shelf, spot, None)
    }
}
