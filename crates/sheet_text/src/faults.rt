// What is wrong in a text, and where.
ghost use Rattle.std.specs.Prelude.{◌≡◌};
ghost use Rattle.sheet_text.specs.Faults.{number_of, word_of, fault_at};

#[derive(Clone, Copy, Debug, PartialEq, Eq)]
pub enum FaultKind {
    // a line's end, its number of fields, a letter or a sign
    Layout,
    // a number or its limits
    Number,
    // a unit of measure or a span
    Unit,
    Keyword,
    // entries that do not rise
    Order,
}

// Lines and fields are counted from 1; field 0 is the whole line.
#[derive(Clone, Copy, Debug, PartialEq, Eq)]
pub struct LineFault {
    pub kind: FaultKind,
    pub line: u32,
    pub field: u32,
}

#[derive(Clone, Copy, Debug, PartialEq, Eq)]
pub enum Section {
    Head,
    Offers,
    Units,
    Groups,
    End,
}

#[derive(Clone, Copy, Debug, PartialEq, Eq)]
pub struct SheetFault {
    pub section: Section,
    pub fault: LineFault,
}

impl FaultKind {
    // The number that it is told by; `u8::from` would not say which number.
    pub fn number(self) -> u8
        ensures { result ≡ number_of self }
    {
        match self {
            FaultKind::Layout => 1,
            FaultKind::Number => 2,
            FaultKind::Unit => 3,
            FaultKind::Keyword => 4,
            FaultKind::Order => 5,
        }
    }

    pub(crate) fn at(self, line: u32, field: u32) -> LineFault
        ensures { result ≡ fault_at self line field }
    {
        LineFault {
            kind: self,
            line,
            field,
        }
    }
}

impl Section {
    // Its word to be put among other bytes, which a `Display` would not give.
    pub fn word(self) -> &'static str
        ensures { result.now ≡ word_of self }
    {
        match self {
            Section::Head => "HEAD",
            Section::Offers => "OFFERS",
            Section::Units => "UNITS",
            Section::Groups => "GROUPS",
            Section::End => "END",
        }
    }
}
