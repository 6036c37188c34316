// The value of a forest site, the rules of document 01, and the check of a site value.
#![tactic(auto)]

mod bytes;
mod check;
mod kinds;
mod length;
mod names;
mod passed;
mod ranges;
mod rules;
mod species_list;
mod stands;
mod value;

pub use bytes::{entries_in, entry_at, name_in};
pub use check::check_due;
pub use kinds::REFERENCE_TEMPERATURE;
pub use length::length_permitted;
pub use passed::CheckedFields;
pub use ranges::{
    AVAILABLE, BASE_DEPOSITION, CEILING, DEPTH, DIOXIDE, DRAINAGE, GIBBSITE, IMMOBILISATION,
    LEACHATE, PARENT, PERCOLATION, RATIO, Range, TEMPERATURE, texture_rule,
};
pub use species_list::SpeciesList;
pub use value::value_rule;

// An entry of the stand: species, share in percent, yield of a pure stand in kg dry matter per hectare and year.
#[derive(Clone, Copy, Default)]
pub struct Entry {
    pub species: u16,
    pub share: u8,
    pub yield_kg: u16,
}

// The first `len` of the bytes: the others are no part of the name. No slice and no vector, since a length that is too great is held too,
// so that the check can refuse it.
#[derive(Clone, Copy, Default)]
pub struct Name {
    pub bytes: [u8; 8],
    pub len: u8,
}

// The first `count` of the entries: the others are no part of the stand. A reserve has none. No vector, as with the name.
#[derive(Clone, Copy, Default)]
pub struct Stand {
    pub entries: [Entry; 4],
    pub count: u8,
}

// The kinds of record, each by its outer tag. A site holds no other.
#[derive(Clone, Copy, Debug, Default, PartialEq, Eq)]
pub enum RecordKind {
    #[default]
    Tag52 = 0x52,
    Tag53 = 0x53,
    Tag54 = 0x54,
    Tag55 = 0x55,
}

// The values of document 01, "The site's values", and of document 02, raw: every bad site can be held, and is refused by the check.
// What its kind lacks is no part of a site: kind 52 has no temperature, and kind 55 alone has soil carbon dioxide. Temperature byte 0 is −5 °C.
// `Default`, here and of the fields' types, is what `ArrayVec::new` fills its places with.
#[derive(Clone, Copy, Default)]
pub struct Site {
    pub kind: RecordKind,
    pub name: Name,
    pub parent: u8,
    pub clay: u8,
    pub sand: u8,
    pub depth: u8,
    pub drainage: u8,
    pub percolation: u16,
    pub stand: Stand,
    pub immobilisation: u16,
    pub available: u8,
    pub base_deposition: u16,
    pub ratio: u16,
    pub gibbsite: u16,
    pub ceiling: u16,
    pub leachate: u16,
    pub sulphur: u16,
    pub nitrogen: u16,
    pub temperature: u8,
    /// Soil carbon dioxide P, in units of 0.00001 atm.
    pub dioxide: u16,
}

// The refusals by number: 1 to 11 of document 01, "Where each check stands", then those of document 02.
#[derive(Clone, Copy, Debug, PartialEq, Eq)]
pub enum Rule {
    NoBytes = 1,
    OuterCut = 2,
    OuterTag = 3,
    TooMany = 4,
    InnerCut = 5,
    InnerTag = 6,
    BadLength = 7,
    OutOfRange = 8,
    NotRising = 9,
    SharesNotWhole = 10,
    BufferShort = 11,
    BadConcentration = 12,
    NoReading = 13,
    PairTooLarge = 14,
    BadList = 15,
    NotListed = 16,
    NotConvertible = 17,
    LoadBelowZero = 21,
}

// The rule that is broken, and the offset of the fault.
#[derive(Clone, Copy, Debug, PartialEq, Eq)]
pub struct Refusal {
    pub rule: Rule,
    pub at: usize,
}
