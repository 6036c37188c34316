// The bytes of a site's value with a given tag.
ghost use Rattle.std.specs.Prelude.{◌≡◌, ◌≤◌, ◌++◌, length};
ghost use Rattle.field.specs.Field.{value, entry_bytes, entries_bytes};

use arrayvec::ArrayVec;
use site::{Entry, RecordKind, Site};

// Bytes of a value. There are at most 20, those of four entries.
fn of(bytes: &[u8]) -> ArrayVec<u8, 20>
    requires { length bytes.now ≤ 20 }
    ensures { result.items ≡ bytes.now }
{
    let mut held = ArrayVec::new();
    // no error: by the contract there are no more than fit
    held.try_extend_from_slice(bytes).unwrap();
    held
}

// The bytes of an entry, after those that are held.
#[tactic(auto, unfolding(field::specs::Field::entry_bytes))]
fn hold_entry(held: &mut ArrayVec<u8, 20>, kind: RecordKind, e: Entry)
    requires { length held.old.items ≤ 15 }
    ensures { held.new.items ≡ held.old.items ++ entry_bytes kind e }
{
    let [high, low] = e.species.to_be_bytes();
    let [hi, lo] = e.yield_kg.to_be_bytes();
    // no error: by the contract there is room for five bytes
    if kind.two_byte_species() {
        held.try_extend_from_slice(&[high, low, e.share, hi, lo])
            .unwrap();
    } else {
        held.try_extend_from_slice(&[low, e.share, hi, lo]).unwrap();
    }
}

#[tactic(auto, using(crate::proofs::ValueBytesLaws::entries_more, crate::proofs::ValueBytesLaws::entries_room), unfolding(field::specs::Field::entries_bytes))]
fn of_entries(kind: RecordKind, entries: &[Entry]) -> ArrayVec<u8, 20>
    requires { length entries.now ≤ 4 }
    ensures { result.items ≡ entries_bytes kind entries.now }
{
    let mut held = ArrayVec::new();
    for e in entries {
        hold_entry(&mut held, kind, *e);
    }
    held
}

#[tactic(auto, unfolding(field::specs::Field::value))]
pub fn value_of(site: Site, tag: u8) -> ArrayVec<u8, 20>
    ensures { result.items ≡ value site.kind tag site }
{
    match tag {
        1 => of(site.name.as_slice()),
        2 => of(&[site.parent]),
        3 => of(&[site.clay, site.sand]),
        4 => of(&[site.depth]),
        5 => of(&[site.drainage]),
        6 => of(&site.percolation.to_be_bytes()),
        7 => of_entries(site.kind, site.stand.as_slice()),
        8 => of(&site.immobilisation.to_be_bytes()),
        9 => of(&[site.available]),
        10 => of(&site.base_deposition.to_be_bytes()),
        11 => of(&site.ratio.to_be_bytes()),
        12 => of(&site.gibbsite.to_be_bytes()),
        13 => of(&site.ceiling.to_be_bytes()),
        14 => of(&site.leachate.to_be_bytes()),
        15 => {
            let [a, b] = site.sulphur.to_be_bytes();
            let [c, d] = site.nitrogen.to_be_bytes();
            of(&[a, b, c, d])
        }
        16 => of(&[site.temperature]),
        17 => of(&site.dioxide.to_be_bytes()),
        // another tag has no bytes
        _ => of(&[]),
    }
}
