// A reader on its way through a text.
ghost use Rattle.std.specs.Prelude.{◌≡◌, ◌+◌, ◌<◌, ◌≤◌, MatchResult};
ghost use Rattle.sheet.specs.Listed.{listed};
ghost use Rattle.sheet_text.specs.Reading.{reading};
ghost use Rattle.sheet_text.specs.Onward.{outcome, At, Takes, Refuses, TakesList, RefusesList, ReadsOn};
ghost use Rattle.sheet_text.specs.Steps.{most_entries};
ghost use Rattle.sheet_text.specs.declared.draft.Stage.TheVariants as stages;
ghost use Rattle.sheet_text.specs.declared.faults.Section.TheVariants as sections;

use crate::cursor::Cursor;
use crate::draft::Draft;
use crate::entry::Entry;
use crate::faults::LineFault;
use crate::raised::{End, FaultIn, Groups, Head, Offers, Units};
use sheet::entries::Entries;

#[derive(Drop)]
pub(crate) struct Reader<'a> {
    pub cursor: Cursor<'a>,
    pub draft: Draft,
}

impl<'a> Reader<'a> {
    pub(crate) fn new(text: &'a [u8]) -> Reader<'a>
        ensures outcome { outcome result ≡ reading text.now }
        ensures stage { result.draft.stage ≡ stages.Period }
        ensures line { result.cursor.line ≡ 1 }
    {
        Reader {
            cursor: Cursor {
                line: 1,
                rest: text,
            },
            draft: Draft::new(),
        }
    }

    // Takes the line that is awaited. Gives the number of entries that follow it.
    fn take_line(&mut self) -> Result<u32, LineFault>
        requires { self.old.cursor.line < 1000 }
        ensures { MatchResult result (λ n. Takes self.old self.new n) (λ e. Refuses self.old e) }
    {
        let line = self.cursor.line;
        let fields = self.cursor.next_fields()?;
        self.draft.take_line(line, fields)
    }

    // Takes the line that is awaited, and the entries that follow it.
    fn take_list<T: Entry, const N: usize>(&mut self) -> Result<Entries<T, N>, LineFault>
        requires short { self.old.cursor.line + most_entries self.old.draft.stage < 999 }
        requires room { most_entries self.old.draft.stage ≤ N }
        ensures { MatchResult result
            (λ xs. TakesList T.Entry.says T.Entry.order self.old self.new (listed xs))
            (λ e. RefusesList T.Entry.says T.Entry.order self.old e) }
    {
        let count = self.take_line()?;
        self.cursor.next_entries(count)
    }

    // The place, the day-ahead price and the forced reduction.
    pub(crate) fn read_head(&mut self) -> Result<(), FaultIn<Head>>
        requires { At self.old stages.Period 1 }
        ensures { ReadsOn sections.Head self.old self.new stages.Offers 4 result }
    {
        self.take_line()?;
        self.take_line()?;
        self.take_line()?;
        Ok(())
    }

    pub(crate) fn read_offers(&mut self) -> Result<(), FaultIn<Offers>>
        requires { At self.old stages.Offers 4 }
        ensures { ReadsOn sections.Offers self.old self.new stages.Units 29 result }
    {
        self.draft.report.sheet.offers = self.take_list()?;
        Ok(())
    }

    pub(crate) fn read_units(&mut self) -> Result<(), FaultIn<Units>>
        requires { At self.old stages.Units 29 }
        ensures { ReadsOn sections.Units self.old self.new stages.Groups 46 result }
    {
        self.draft.report.sheet.units = self.take_list()?;
        Ok(())
    }

    pub(crate) fn read_groups(&mut self) -> Result<(), FaultIn<Groups>>
        requires { At self.old stages.Groups 46 }
        ensures { ReadsOn sections.Groups self.old self.new stages.End 63 result }
    {
        self.draft.report.sheet.groups = self.take_list()?;
        Ok(())
    }

    pub(crate) fn read_end(&mut self) -> Result<(), FaultIn<End>>
        requires { At self.old stages.End 63 }
        ensures { ReadsOn sections.End self.old self.new stages.Done 64 result }
    {
        self.take_line()?;
        self.cursor.finish()?;
        Ok(())
    }
}
