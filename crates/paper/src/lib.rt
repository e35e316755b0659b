// The limits of docs/SCOPE.md, for code; the same numbers stand in specs/Limits.antt, and those of kinds in specs/Document.antt, for the promises.
#![tactic(auto)]

// The most bytes of a text lent for reading.
pub const TEXT_LIMIT: usize = 32768;
// The most bytes of a name list.
pub const LIST_LIMIT: usize = 8192;
// The most items of a query.
pub const ITEM_LIMIT: usize = 4096;
// The most nodes of a table.
pub const NODE_LIMIT: usize = 4096;
// The most brackets open at once.
pub const BRACKET_LIMIT: usize = 64;
// The most bytes of a name.
pub const NAME_LIMIT: usize = 64;
// The most names of a list.
pub const NAMES_LIMIT: usize = 256;
// The most views, and the most roles.
pub const VIEW_LIMIT: usize = 32;

pub const ROLE_LIMIT: usize = 16;
// The kind of text, of an element of the first name, and the greatest kind.
pub const TEXT_KIND: u16 = 1;

pub const ELEMENT_KIND: u16 = 2;

pub const KIND_LIMIT: u16 = 257;

// Why an entry point refuses, with the place. specs/Told.antt gives its number.
#[derive(Clone, Copy)]
pub enum Refusal {
    TooLong,
    BadName(usize),
    NoQuery(usize),
    TooDeep(usize),
    UnknownName(usize),
    BadQuery(usize),
    BadTable(usize),
    BadMarks(usize),
    TooNested(usize),
    Short(usize),
    NoXml(usize),
    LeftOut(usize),
    NoElement,
    OtherText,
    NoRole(usize),
    NoView(usize),
    UnreadView(usize),
    Unreadable,
}

// What an entry point answers: the value, or a refusal.
pub type Answer = Result<usize, Refusal>;
