// The value of a field taken into a site.
ghost use Rattle.std.specs.Prelude.{true, ◌≡◌, length};
ghost use Rattle.site.specs.Refusal.{checked_number, Numbered};
ghost use Rattle.site.specs.Values.{length_permitted};
ghost use Rattle.field.specs.Field.{site_kind, store, taken};
ghost use Rattle.field.specs.Kind.{field_rule};

use numbers::{byte, word_at};
use site::{
    Name, Rule, Site, SpeciesList, Stand, entries_in, length_permitted, name_in, value_rule,
};

// The value of a field of a permitted length, put into the site.
#[tactic(auto, using(site::proofs::LengthLaws::permitted_parts, site::proofs::LengthLaws::permitted_tag, site::proofs::MatchLaws::none_left), unfolding(crate::specs::Field::store))]
#[inline(always)]
fn store(site: &mut Site, tag: u8, value: &[u8])
    requires { length_permitted site.old.kind tag (length value.now) ≡ true }
    ensures { site.new ≡ store site.old.kind tag value.now site.old }
{
    match tag {
        1 => {
            site.name = Name {
                bytes: name_in(value),
                // a permitted length is at most 8: `try_from` would bring a refusal that cannot come
                len: value.len() as u8,
            }
        }
        2 => site.parent = byte(value, 0),
        3 => {
            site.clay = byte(value, 0);
            site.sand = byte(value, 1);
        }
        4 => site.depth = byte(value, 0),
        5 => site.drainage = byte(value, 0),
        6 => site.percolation = word_at(value, 0),
        7 => {
            site.stand = Stand {
                entries: entries_in(site.kind, value),
                // and at most 20 of a stand
                count: (value.len() / site.kind.entry_width()) as u8,
            }
        }
        8 => site.immobilisation = word_at(value, 0),
        9 => site.available = byte(value, 0),
        10 => site.base_deposition = word_at(value, 0),
        11 => site.ratio = word_at(value, 0),
        12 => site.gibbsite = word_at(value, 0),
        13 => site.ceiling = word_at(value, 0),
        14 => site.leachate = word_at(value, 0),
        15 => {
            site.sulphur = word_at(value, 0);
            site.nitrogen = word_at(value, 2);
        }
        16 => site.temperature = byte(value, 0),
        17 => site.dioxide = word_at(value, 0),
        // no other tag has a permitted length
        _ => {}
    }
}

// Rules 7 to 10 and 16 of a field. Its value stands in the site where its length is permitted, also if a later rule refuses it.
#[tactic(auto, using(crate::proofs::TakenLaws::field_numbered, crate::proofs::TakenLaws::store_kind), unfolding(crate::specs::Field::taken, crate::specs::Kind::field_rule))]
#[inline(always)]
pub fn take_field(site: &mut Site, tag: u8, value: &[u8], list: SpeciesList<'_>) -> Result<(), Rule>
    ensures answer { result ≡ field_rule (site_kind list.entry.bytes.now site.old.kind) tag value.now site.old }
    ensures stored { site.new ≡ taken site.old.kind tag value.now site.old }
    ensures number { Numbered (field_rule (site_kind list.entry.bytes.now site.old.kind) tag value.now site.old) (checked_number result) }
{
    if !length_permitted(site.kind, tag, value.len()) {
        return Err(Rule::BadLength);
    }
    store(site, tag, value);
    value_rule(site, tag, list)
}
