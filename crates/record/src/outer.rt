// A record of a file, and the file of at most one record.
ghost use Rattle.std.specs.Prelude.{◌≡◌, ◌-◌, ◌≤◌, get_or, length, take, drop, IfOk, IfErr, MatchResult, Ok, Err};
ghost use Rattle.site.specs.Kinds.{kind_by};
ghost use Rattle.site.specs.Refusal.{and_then};
ghost use Rattle.site.specs.declared.Rule.TheVariants.{LoadBelowZero};
ghost use Rattle.record.specs.Outer.{known_to, fields_at, site_at, record_at, read_record};
ghost use Rattle.record.specs.File.{contents_by};
ghost use Rattle.record.specs.Records.{outer_rule};
ghost use Rattle.record.specs.Result.{result_numbers};
ghost use Rattle.record.specs.Unread.{found_in};
ghost use Rattle.record.specs.Writer.{WritesAgain};

use crate::bytes::stated_len;
use crate::found::{FieldsFound, Found};
use crate::inner::read_fields;
use site::{CheckedFields, RecordKind, Refusal, Rule, Site, SpeciesList};

// Rules 2 and 3 at the bytes that are left, and the kind of the record there.
#[tactic(auto, unfolding(crate::specs::Records::outer_rule, crate::specs::Outer::known_to, site::specs::Refusal::and_then))]
fn outer_kind(newest: RecordKind, rest: &[u8]) -> Result<RecordKind, Rule>
    ensures { result ≡ and_then (outer_rule (known_to newest) rest.now) (kind_by (get_or rest.now 0 0)) }
{
    if rest.len() < 3 {
        return Err(Rule::OuterCut);
    }
    let kind = RecordKind::try_from(rest[0])?;
    if newest.tag() < rest[0] {
        return Err(Rule::OuterTag);
    }
    let n = stated_len(rest);
    if 255 < n {
        return Err(Rule::OuterCut);
    }
    if rest.len() - 3 < n {
        return Err(Rule::OuterCut);
    }
    Ok(kind)
}

// The bytes from an offset on, none past the end.
fn bytes_from(file: &[u8], at: usize) -> &[u8]
    ensures bytes { result.now ≡ drop at file.now }
    ensures fits { length result.now ≡ length file.now - at }
{
    file.get(at..).unwrap_or(&[])
}

// The fields of the record whose outer field starts at `at`, where it is of a kind up to the newest.
#[tactic(auto, using(crate::proofs::OuterLaws::kind_fits))]
pub fn fields_at<'a>(
    newest: RecordKind,
    file: &[u8],
    at: usize,
    list: SpeciesList<'a>,
) -> Result<FieldsFound<'a>, Refusal>
    ensures { let read = fields_at newest list.entry.bytes.now file.now at in MatchResult result (λ x. (read ≡ Ok (found_in x)) × (x.checked.list.bytes.now ≡ list.entry.bytes.now)) (λ refusal. read ≡ Err refusal) }
{
    let rest = bytes_from(file, at);
    let kind = outer_kind(newest, rest).map_err(|rule| Refusal { rule, at })?;
    let end = 3 + stated_len(rest);
    let site = read_fields(kind, &rest[3..end], at + 3, list)?;
    let checked = CheckedFields { site, list };
    let next = at + end;
    Ok(FieldsFound { checked, next })
}

// The record whose outer field starts at `at`. Where no byte is left there, that is an outer field under 3 bytes.
pub fn read_at(file: &[u8], at: usize, list: SpeciesList<'_>) -> Result<Found, Refusal>
    ensures answer { result ≡ record_at list.entry.bytes.now file.now at }
    ensures numbers { result_numbers result ≡ result_numbers (site_at list.entry.bytes.now file.now at) }
    ensures nothing_there { length file.now ≤ at → result_numbers result ≡ (2, at) }
    ensures at_field_11 { IfErr result (λ refusal. refusal.rule ≡ LoadBelowZero → get_or file.now refusal.at 0 ≡ 17) }
    ensures written_again { IfOk result (λ found. WritesAgain list.entry.bytes.now found.site (take (found.next - at) (drop at file.now))) }
{
    let found = fields_at(RecordKind::Tag55, file, at, list)?;
    found.check_load()?;
    Ok(Found {
        site: found.checked.site,
        next: found.next,
    })
}

// The single record of a file of at most one.
pub fn read_record(file: &[u8], list: SpeciesList<'_>) -> Result<Site, Refusal>
    ensures answer { result ≡ read_record list.entry.bytes.now file.now }
    ensures numbers { result_numbers result ≡ result_numbers (contents_by 1 (site_at list.entry.bytes.now file.now) (length file.now)) }
    ensures at_field_11 { IfErr result (λ refusal. refusal.rule ≡ LoadBelowZero → get_or file.now refusal.at 0 ≡ 17) }
    ensures written_again { IfOk result (λ site. WritesAgain list.entry.bytes.now site file.now) }
{
    if file.is_empty() {
        return Err(Rule::NoBytes.into());
    }
    let Found { site, next } = read_at(file, 0, list)?;
    if next != file.len() {
        return Err(Refusal {
            rule: Rule::TooMany,
            at: next,
        });
    }
    Ok(site)
}
