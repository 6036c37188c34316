// Fields put into a lent buffer.
ghost use Rattle.std.specs.Prelude.{[], ◌∷◌, ◌+◌, ◌/◌, ◌%◌, ◌≤◌, ◌<◌, length};
ghost use Rattle.site.specs.Kinds.{due};
ghost use Rattle.output.specs.Writing.{Wrote};
ghost use Rattle.record.specs.FieldParts.{field_of};
ghost use Rattle.field.specs.Field.{value, site_kind};
ghost use Rattle.record.specs.Fields.{encode_fields};

use crate::value::value_of;
use output::put_bytes;
use site::Site;

// Tag and length of a field. Each of these functions returns the index after what it has written; buffer and index stay apart, as in `text`.
pub fn put_head(buf: &mut [u8], at: usize, tag: u8, n: usize) -> usize
    requires { (at + 3 ≤ length buf.old) × (n < 65536) }
    ensures { Wrote buf.old at (tag ∷ (n / 256) ∷ (n % 256) ∷ []) buf.new result }
{
    // the contract keeps n below 65536
    let [hi, lo] = (n as u16).to_be_bytes();
    put_bytes(buf, at, &[tag, hi, lo])
}

#[tactic(auto, using(crate::proofs::EncodeLaws::field_put), unfolding(crate::specs::FieldParts::field_of))]
fn put_field(buf: &mut [u8], at: usize, site: Site, tag: u8) -> usize
    requires { at + length (field_of tag (value site.kind tag site)) ≤ length buf.old }
    ensures { Wrote buf.old at (field_of tag (value site.kind tag site)) buf.new result }
{
    let bytes = value_of(site, tag);
    let start = put_head(buf, at, tag, bytes.len());
    put_bytes(buf, start, &bytes)
}

pub fn put_fields(buf: &mut [u8], at: usize, site: Site) -> usize
    requires { at + length (encode_fields (site_kind [] site.kind) (due site.kind) site) ≤ length buf.old }
    ensures { Wrote buf.old at (encode_fields (site_kind [] site.kind) (due site.kind) site) buf.new result }
{
    let mut end = at;
    for tag in 1..site.kind.end() {
        end = put_field(buf, end, site, tag);
    }
    end
}
