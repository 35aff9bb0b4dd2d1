// Where the reading of a text stands.
ghost use Rattle.std.specs.Prelude.{◌≡◌, ◌+◌, ◌<◌, ◌≤◌, [], Ok, Err, MatchResult};
ghost use Rattle.sheet.specs.Listed.{listed};
ghost use Rattle.sheet_text.specs.Listing.{listing};
ghost use Rattle.sheet_text.specs.Reading.{entries, finished};
ghost use Rattle.sheet_text.specs.Standing.{left, next_fields};

use crate::entry::Entry;
use crate::faults::{FaultKind, LineFault};
use crate::fields::{Fields, fields_of};
use sheet::entries::Entries;
use text::cutting::cut_at;

// The number of the next line, and the text from there on.
#[derive(Drop)]
pub(crate) struct Cursor<'a> {
    pub line: u32,
    pub rest: &'a [u8],
}

impl<'a> Cursor<'a> {
    // Takes the next line.
    pub(crate) fn next_fields(&mut self) -> Result<Fields<'a>, LineFault>
        requires { self.old.line < 1000 }
        ensures { MatchResult result
            (λ f. next_fields (left self.old) ≡ Ok (listing f, left self.new))
            (λ e. next_fields (left self.old) ≡ Err e) }
    {
        let (bytes, rest) = cut_at(self.rest, b'\n').ok_or(FaultKind::Layout.at(self.line, 0))?;
        self.rest = rest;
        self.line += 1;
        Ok(fields_of(bytes))
    }

    // Takes the entries of a section.
    pub(crate) fn next_entries<T: Entry, const N: usize>(
        &mut self,
        count: u32,
    ) -> Result<Entries<T, N>, LineFault>
        requires short { self.old.line + count < 1000 }
        requires room { count ≤ N }
        ensures { MatchResult result
            (λ xs. (entries T.Entry.says T.Entry.order count 0 [] (left self.old) ≡ Ok (listed xs, left self.new))
            × (self.new.line ≡ self.old.line + count))
            (λ e. entries T.Entry.says T.Entry.order count 0 [] (left self.old) ≡ Err e) }
    {
        // the index of an entry gives its line, for a fault
        let first = self.line;
        let mut before = 0;
        let mut found = Entries::empty(T::default());
        for index in 0..count {
            let fields = self.next_fields()?;
            let entry = T::of_fields(before, first + index, fields)?;
            before = entry.number();
            found.push(entry).unwrap();
        }
        Ok(found)
    }

    // Nothing may follow.
    pub(crate) fn finish(&self) -> Result<(), LineFault>
        ensures { result ≡ finished (left self.now) }
    {
        if self.rest.is_empty() {
            Ok(())
        } else {
            Err(FaultKind::Layout.at(self.line, 0))
        }
    }
}
