// A name and an entry in bytes, with zeros past the end.
ghost use Rattle.std.specs.Prelude.{◌≡◌, ◌*◌};
ghost use Rattle.site.specs.Bytes.{tabulate, name_in, entry_at};
ghost use Rattle.site.specs.Kinds.{entry_width};

use crate::{Entry, RecordKind};
use numbers::{byte, word_at};
use std::array;

#[tactic(auto, unfolding(crate::specs::Bytes::tabulate))]
pub fn name_in(s: &[u8]) -> [u8; 8]
    ensures { result ≡ name_in s.now }
{
    array::from_fn(|i| byte(s, i))
}

// The entry whose bytes start at i, in a record of a kind.
#[tactic(auto, using(crate::proofs::EntryPast::entry_past), unfolding(crate::specs::Bytes::entry_at))]
pub fn entry_at(kind: RecordKind, s: &[u8], i: usize) -> Entry
    ensures { result ≡ entry_at kind s.now i }
{
    if s.len() <= i {
        return Entry {
            species: 0,
            share: 0,
            yield_kg: 0,
        };
    }
    if kind.two_byte_species() {
        return Entry {
            species: word_at(s, i),
            share: byte(s, i + 2),
            yield_kg: word_at(s, i + 3),
        };
    }
    Entry {
        species: u16::from(s[i]),
        share: byte(s, i + 1),
        yield_kg: word_at(s, i + 2),
    }
}

// The entries whose bytes stand at the front.
#[tactic(auto, unfolding(crate::specs::Bytes::tabulate))]
pub fn entries_in(kind: RecordKind, s: &[u8]) -> [Entry; 4]
    ensures { result ≡ tabulate 4 (λ i. entry_at kind s.now (entry_width kind * i)) }
{
    array::from_fn(|i| entry_at(kind, s, kind.entry_width() * i))
}
