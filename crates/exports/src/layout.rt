// A site value from its bytes.
ghost use Rattle.std.specs.Prelude.{◌≡◌, ◌<◌};
ghost use Rattle.exports.specs.Layout.{entry_in, stand_in, site_as};

use numbers::{byte, word_at};
use site::{Entry, Name, REFERENCE_TEMPERATURE, RecordKind, Site, Stand, name_in};
use std::array;

// Entry i of the stand; where its species number has no high byte, that is 0.
#[tactic(auto, unfolding(crate::specs::Layout::entry_in))]
fn entry_in(b: &[u8], i: usize) -> Entry
    requires { i < 4 }
    ensures { result ≡ entry_in b.now i }
{
    let at = 16 + 4 * i;
    Entry {
        species: u16::from_be_bytes([byte(b, 51 + i), byte(b, at)]),
        share: byte(b, at + 1),
        yield_kg: word_at(b, at + 2),
    }
}

#[tactic(auto, unfolding(site::specs::Bytes::tabulate))]
fn stand_in(b: &[u8]) -> Stand
    ensures { result ≡ stand_in b.now }
{
    Stand {
        entries: array::from_fn(|i| entry_in(b, i)),
        count: byte(b, 32),
    }
}

#[tactic(auto, unfolding(crate::specs::Layout::site_as))]
pub fn site_as(kind: RecordKind, b: &[u8]) -> Site
    ensures { result ≡ site_as kind b.now }
{
    Site {
        kind,
        name: Name {
            bytes: name_in(b),
            len: byte(b, 8),
        },
        parent: byte(b, 9),
        clay: byte(b, 10),
        sand: byte(b, 11),
        depth: byte(b, 12),
        drainage: byte(b, 13),
        percolation: word_at(b, 14),
        stand: stand_in(b),
        immobilisation: word_at(b, 33),
        available: byte(b, 35),
        base_deposition: word_at(b, 36),
        ratio: word_at(b, 38),
        gibbsite: word_at(b, 40),
        ceiling: word_at(b, 42),
        leachate: word_at(b, 44),
        sulphur: word_at(b, 46),
        nitrogen: word_at(b, 48),
        temperature: b.get(50).copied().unwrap_or(REFERENCE_TEMPERATURE),
        dioxide: word_at(b, 55),
    }
}
