// A site as a record of another kind has it, and rule 17.
ghost use Rattle.std.specs.Prelude.{◌≡◌, ◌+◌, ◌<◌, ◌≤◌, ◌^◌, length, take, Ok};
ghost use Rattle.std.specs.List.{list_all};
ghost use Rattle.record.specs.Writer.{encode};
ghost use Rattle.convert.specs.Moved.{moved, Older, convertible, small, species_convertible, temperature_convertible};
ghost use Rattle.convert.specs.Converted.{if_convertible};

use crate::Target;
use site::{REFERENCE_TEMPERATURE, Refusal, Rule, Site, Stand};

// Every value stays, and the temperature is the one that counts.
#[tactic(auto, unfolding(crate::specs::Moved::moved))]
pub fn moved(target: Target, site: Site) -> Site
    ensures { result ≡ moved target site }
{
    Site {
        kind: target.kind(),
        temperature: site.counted_temperature(),
        ..site
    }
}

fn convertible(b: bool) -> Result<(), Rule>
    ensures { result ≡ convertible b }
{
    if b { Ok(()) } else { Err(Rule::NotConvertible) }
}

// Whether all species are below 256.
fn all_small(stand: &Stand) -> bool
    ensures { result ≡ list_all small (take stand.now.count stand.now.entries) }
{
    stand.as_slice().iter().all(|e| e.species < 256)
}

// Field 07: where a species has one byte, all are below 256.
#[tactic(auto, unfolding(crate::specs::Moved::species_convertible))]
fn species_convertible(target: Target, site: Site) -> Result<(), Rule>
    ensures { result ≡ species_convertible target site }
{
    convertible(target.kind().two_byte_species() || all_small(&site.stand))
}

// Field 10: where a record has none, the temperature is 8 °C.
#[tactic(auto, unfolding(crate::specs::Moved::temperature_convertible))]
fn temperature_convertible(target: Target, site: Site) -> Result<(), Rule>
    ensures { result ≡ temperature_convertible target site }
{
    convertible(
        target.kind().has_temperature() || site.counted_temperature() == REFERENCE_TEMPERATURE,
    )
}

// Rule 17 at the record of a site that starts at `at` of the file and is `len` bytes long. Field 07 starts 28 bytes and the name behind the start, field 10 with
// its 4 bytes ends a record without field 11.
pub fn check_convertible(target: Target, site: Site, at: usize, len: usize) -> Result<(), Refusal>
    requires older { Older site }
    requires length { len ≡ length (encode site) }
    requires range { (4 ≤ len) × (at + len < 2 ^ 63) }
    ensures { result ≡ if_convertible target site at (Ok tt) }
{
    let stand = at + 28 + site.name.as_slice().len();
    species_convertible(target, site).map_err(|rule| Refusal { rule, at: stand })?;
    let temperature = at + len - 4;
    temperature_convertible(target, site).map_err(|rule| Refusal {
        rule,
        at: temperature,
    })
}
