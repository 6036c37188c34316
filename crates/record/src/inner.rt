// The fields inside a record, read from the left.
ghost use Rattle.std.specs.Prelude.{◌≡◌, ◌+◌, ◌≤◌, ◌<◌, ◌^◌, length, Ok};
ghost use Rattle.site.specs.Kinds.{due};
ghost use Rattle.site.specs.Refusal.{unless};
ghost use Rattle.field.specs.Field.{site_kind};
ghost use Rattle.record.specs.Fields.{head_rule, fields_in};
ghost use Rattle.record.specs.Reading.{still_read};

use crate::bytes::stated_len;
use crate::reading::Reading;
use field::{blank, take_field};
use site::{RecordKind, Refusal, Rule, Site, SpeciesList};

// Rules 5 and 6 at the bytes that are left.
#[tactic(auto, unfolding(crate::specs::Fields::head_rule))]
#[inline(always)]
fn head_rule(rest: &[u8], tag: u8) -> Result<(), Rule>
    ensures { result ≡ head_rule tag rest.now }
{
    if rest.is_empty() {
        return Err(Rule::InnerTag);
    }
    if rest.len() < 3 {
        return Err(Rule::InnerCut);
    }
    if rest[0] != tag {
        return Err(Rule::InnerTag);
    }
    if rest.len() - 3 < stated_len(rest) {
        return Err(Rule::InnerCut);
    }
    Ok(())
}

impl Reading<'_> {
    // Takes the field whose tag is due. A fault leaves the offset, and whatever comes of it the kind.
    #[tactic(auto, using(crate::proofs::WalkLaws::head_passed, field::proofs::TakenLaws::taken_kind))]
    #[inline(always)]
    fn take(&mut self, tag: u8, list: SpeciesList<'_>) -> Result<(), Rule>
        requires { tag ≤ length (due self.old.site.kind) }
        ensures goes_on { unless result self.new.at (still_read list.entry.bytes.now (tag + 1) self.new) ≡ still_read list.entry.bytes.now tag self.old }
        ensures kind { self.new.site.kind ≡ self.old.site.kind }
    {
        head_rule(self.bytes, tag)?;
        let end = 3 + stated_len(self.bytes);
        take_field(&mut self.site, tag, &self.bytes[3..end], list)?;
        self.bytes = &self.bytes[end..];
        self.at += end;
        Ok(())
    }

    // Takes five fields of those that every kind has, from tag t on. With no loop each tag is a constant where this is written in, and its rule a few tests.
    #[tactic(auto, using(site::proofs::Tags::first_fifteen), unfolding(site::specs::Refusal::unless))]
    #[inline(always)]
    fn take_five(&mut self, t: u8, list: SpeciesList<'_>) -> Result<(), Rule>
        requires { t + 4 ≤ 15 }
        ensures { unless result self.new.at (still_read list.entry.bytes.now (t + 5) self.new) ≡ still_read list.entry.bytes.now t self.old }
    {
        self.take(t, list)?;
        self.take(t + 1, list)?;
        self.take(t + 2, list)?;
        self.take(t + 3, list)?;
        self.take(t + 4, list)
    }

    // Takes the fields of the kind, behind which no byte may be left.
    #[tactic(auto, using(crate::proofs::ReadingLaws::none_due), unfolding(site::specs::Refusal::unless))]
    #[inline(always)]
    fn take_all(&mut self, list: SpeciesList<'_>) -> Result<(), Rule>
        ensures { unless result self.new.at (Ok self.new.site) ≡ still_read list.entry.bytes.now 1 self.old }
    {
        self.take_five(1, list)?;
        self.take_five(6, list)?;
        self.take_five(11, list)?;
        for tag in 16..self.site.kind.end() {
            self.take(tag, list)?;
        }
        if !self.bytes.is_empty() {
            return Err(Rule::InnerTag);
        }
        Ok(())
    }
}

// The fields of a record, those of its kind. The part starts at `base` of the lent input.
#[tactic(auto, using(crate::proofs::ReadingLaws::first_read), unfolding(site::specs::Refusal::unless))]
#[inline(always)]
pub fn read_fields(
    kind: RecordKind,
    part: &[u8],
    base: usize,
    list: SpeciesList<'_>,
) -> Result<Site, Refusal>
    requires { base + length part.now < 2 ^ 64 }
    ensures { result ≡ fields_in (site_kind list.entry.bytes.now kind) part.now base }
{
    let mut reading = Reading {
        site: blank(kind),
        bytes: part,
        at: base,
    };
    match reading.take_all(list) {
        Ok(()) => Ok(reading.site),
        Err(rule) => Err(Refusal {
            rule,
            at: reading.at,
        }),
    }
}
