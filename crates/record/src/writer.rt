// A site's record: its length, and the record put or written into a lent buffer.
ghost use Rattle.std.specs.Prelude.{◌≡◌, ◌≤◌, length, take, Ok, IfOk};
ghost use Rattle.output.specs.Output.{write_answer, written_numbers, held_after, output_numbers};
ghost use Rattle.output.specs.Writing.{WroteIf};
ghost use Rattle.record.specs.Outer.{read_record};
ghost use Rattle.field.specs.Clean.{clean};
ghost use Rattle.record.specs.Writer.{encode, most_site_record, write_rule, added_length};

use crate::put::{put_fields, put_head};
use loads::check_site;
use site::{RecordKind, Refusal, Rule, Site, SpeciesList};

// The bytes of the fields after 0F.
fn added_length(kind: RecordKind) -> usize
    ensures { result ≡ added_length kind }
{
    match kind {
        RecordKind::Tag52 => 0,
        // head and temperature
        RecordKind::Tag53 => 3 + 1,
        RecordKind::Tag54 => 3 + 1,
        // and head and carbon dioxide
        RecordKind::Tag55 => 3 + 1 + 3 + 2,
    }
}

// How many bytes the record of the site has, also of one that passes no check.
pub fn record_len(site: Site) -> usize
    ensures answer { result ≡ length (encode site) }
    ensures bounds { (72 ≤ result) × (result ≤ most_site_record site.kind) }
{
    // 15 heads, 24 bytes of values of one length, the name and the entries, then the fields after 0F
    let body = 15 * 3
        + 24
        + site.name.as_slice().len()
        + site.kind.entry_width() * site.stand.as_slice().len()
        + added_length(site.kind);
    3 + body
}

// The record of the site at index `at`, and the index after it; where it does not fit, nothing is written.
pub fn put_record(out: &mut [u8], at: usize, site: Site) -> usize
    ensures { WroteIf out.old at (encode site) out.new result }
{
    let len = record_len(site);
    match at.checked_add(len) {
        Some(end) if end <= out.len() => {
            let start = put_head(out, at, site.kind.tag(), len - 3);
            put_fields(out, start, site)
        }
        _ => at,
    }
}

// The record of the site at the front of the buffer; a refusal leaves the buffer as it is.
pub fn write_record(site: Site, list: SpeciesList<'_>, buf: &mut [u8]) -> Result<usize, Refusal>
    ensures answer { result ≡ write_answer (write_rule list.entry.bytes.now site (length buf.old)) (length (encode site)) }
    ensures buffer { buf.new ≡ held_after (write_rule list.entry.bytes.now site (length buf.old)) (encode site) buf.old }
    ensures numbers { written_numbers result ≡ output_numbers (write_rule list.entry.bytes.now site (length buf.old)) (length (encode site)) }
    ensures read_again { IfOk result (λ n. read_record list.entry.bytes.now (take n buf.new) ≡ Ok (clean site)) }
{
    check_site(site, list)?;
    if buf.len() < record_len(site) {
        return Err(Rule::BufferShort.into());
    }
    Ok(put_record(buf, 0, site))
}
