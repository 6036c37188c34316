// The blank site of a kind, which reading starts from: field by field. A derived `Default` needs a law of arrays and an answer that names each field again.
ghost use Rattle.std.specs.Prelude.{◌≡◌};
ghost use Rattle.field.specs.Field.{blank_of};

use site::{Entry, Name, REFERENCE_TEMPERATURE, RecordKind, Site, Stand};

#[tactic(auto, unfolding(crate::specs::Field::blank_of, crate::specs::Field::blank_site))]
pub fn blank(kind: RecordKind) -> Site
    ensures { result ≡ blank_of kind }
{
    let no_entry = Entry {
        species: 0,
        share: 0,
        yield_kg: 0,
    };
    Site {
        kind,
        name: Name {
            bytes: [0; 8],
            len: 0,
        },
        parent: 0,
        clay: 0,
        sand: 0,
        depth: 0,
        drainage: 0,
        percolation: 0,
        stand: Stand {
            entries: [no_entry; 4],
            count: 0,
        },
        immobilisation: 0,
        available: 0,
        base_deposition: 0,
        ratio: 0,
        gibbsite: 0,
        ceiling: 0,
        leachate: 0,
        sulphur: 0,
        nitrogen: 0,
        temperature: REFERENCE_TEMPERATURE,
        dioxide: 0,
    }
}
