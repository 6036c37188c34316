// What the kind of a record says: its outer tag, its fields, and what stands for those it lacks.
ghost use Rattle.std.specs.Prelude.{◌≡◌, ◌+◌, length};
ghost use Rattle.site.specs.Kinds.{kind_tag, kind_by, due, two_byte_species, entry_width, has_temperature, counted_temperature, has_dioxide, counted_dioxide};

use crate::{RecordKind, Rule, Site};

// The temperature byte of 8 °C, which stands for the field where a kind has none.
pub const REFERENCE_TEMPERATURE: u8 = 13;

impl RecordKind {
    pub fn tag(self) -> u8
        ensures { result ≡ kind_tag self }
    {
        // the number of its case, which a match would only write out
        self as u8
    }

    // One past the last of its fields, whose tags rise from 01 without a gap.
    pub fn end(self) -> u8
        ensures { result ≡ length (due self) + 1 }
    {
        match self {
            RecordKind::Tag52 => 16,
            RecordKind::Tag53 => 17,
            RecordKind::Tag54 => 17,
            RecordKind::Tag55 => 18,
        }
    }

    // Whether a species number has two bytes.
    pub fn two_byte_species(self) -> bool
        ensures { result ≡ two_byte_species self }
    {
        match self {
            RecordKind::Tag52 => false,
            RecordKind::Tag53 => false,
            RecordKind::Tag54 => true,
            RecordKind::Tag55 => true,
        }
    }

    // The bytes of an entry of the stand.
    pub fn entry_width(self) -> usize
        ensures { result ≡ entry_width self }
    {
        if self.two_byte_species() { 5 } else { 4 }
    }

    // Whether it has the field 10.
    pub fn has_temperature(self) -> bool
        ensures { result ≡ has_temperature self }
    {
        0x10 < self.end()
    }

    /// Whether it has the field 11.
    pub fn has_dioxide(self) -> bool
        ensures { result ≡ has_dioxide self }
    {
        0x11 < self.end()
    }
}

// The kind of an outer tag, or rule 3.
impl TryFrom<u8> for RecordKind {
    type Error = Rule;

    ghost try_from_gives = { λ tag r. r ≡ kind_by tag };

    fn try_from(tag: u8) -> Result<RecordKind, Rule> {
        match tag {
            0x52 => Ok(RecordKind::Tag52),
            0x53 => Ok(RecordKind::Tag53),
            0x54 => Ok(RecordKind::Tag54),
            0x55 => Ok(RecordKind::Tag55),
            _ => Err(Rule::OuterTag),
        }
    }
}

impl Site {
    // The temperature byte that counts: the site's own, and that of 8 °C where its kind has none.
    #[tactic(auto, unfolding(crate::specs::Kinds::counted_temperature))]
    pub fn counted_temperature(self) -> u8
        ensures { result ≡ counted_temperature self }
    {
        if self.kind.has_temperature() {
            self.temperature
        } else {
            REFERENCE_TEMPERATURE
        }
    }

    /// The soil carbon dioxide P that counts, in units of 0.00001 atm: the site's own, and 0 where its kind has none.
    #[tactic(auto, unfolding(crate::specs::Kinds::counted_dioxide))]
    pub fn counted_dioxide(self) -> u16
        ensures { result ≡ counted_dioxide self }
    {
        if self.kind.has_dioxide() {
            self.dioxide
        } else {
            0
        }
    }
}
