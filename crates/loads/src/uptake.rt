// What a stand takes up.
ghost use Rattle.std.specs.Prelude.{◌≡◌, [], ◌*◌, ◌≤◌, get_or, length, sum_by};
ghost use Rattle.site.specs.Ranges.{most_entries};
ghost use Rattle.site.specs.Bounds.{EntryBounds, StandBounds};
ghost use Rattle.loads.specs.MostTerms.{most_nitrogen_weight, most_base_weight};
ghost use Rattle.loads.specs.Uptake.{species_table, species_row, nitrogen_in, base_in, weight_of, base_uptake_of};

use numbers::word_at;
use site::{Entry, SpeciesList};

// The species table: Ca, Mg, K, N in hundredths of eq per tonne.
const CONTENTS: [[u16; 4]; 9] = [
    [5389, 1980, 1660, 7782],
    [7036, 1480, 1970, 8710],
    [8982, 2140, 3580, 10357],
    [12330, 1480, 2690, 14993],
    [8483, 2470, 3330, 9995],
    [5988, 1650, 1920, 12137],
    [4790, 1810, 1560, 8214],
    [14970, 1980, 2560, 9995],
    [8483, 2470, 3330, 9995],
];

// share × yield × content, for N and for Ca + Mg + K
#[derive(Clone, Copy)]
pub struct Sums {
    pub nitrogen: u64,
    pub base: u64,
}

// The contents of a species: from the table, and past it from the list.
#[tactic(auto, unfolding(crate::specs::Uptake::species_row))]
fn species_row(species: u16, list: SpeciesList<'_>) -> [u16; 4]
    ensures { result ≡ species_row list.entry.bytes.now species }
{
    if species <= 8 {
        return CONTENTS[usize::from(species)];
    }
    let at = 10 * list.place_of(species);
    [
        word_at(list.bytes, at + 2),
        word_at(list.bytes, at + 4),
        word_at(list.bytes, at + 6),
        word_at(list.bytes, at + 8),
    ]
}

// of one entry
#[tactic(auto, using(crate::proofs::Numbers::prod), unfolding(crate::specs::Uptake::weight_of, crate::specs::Uptake::nitrogen_in, crate::specs::Uptake::base_in, crate::specs::Uptake::content))]
fn weighed(entry: Entry, list: SpeciesList<'_>) -> Sums
    requires { EntryBounds entry }
    ensures nitrogen { result.nitrogen ≡ weight_of (nitrogen_in list.entry.bytes.now) entry }
    ensures base { result.base ≡ weight_of (base_in list.entry.bytes.now) entry }
    ensures nitrogen_le { result.nitrogen ≤ most_nitrogen_weight }
    ensures base_le { result.base ≤ most_base_weight }
{
    let [calcium, magnesium, potassium, nitrogen] = species_row(entry.species, list);
    let yielded = u64::from(entry.share) * u64::from(entry.yield_kg);
    let base = u64::from(calcium) + u64::from(magnesium) + u64::from(potassium);
    Sums {
        nitrogen: yielded * u64::from(nitrogen),
        base: yielded * base,
    }
}

// summed over entries: their bounds are asked here alone, where the check of the site has just given them
pub fn stand_sums(entries: &[Entry], list: SpeciesList<'_>) -> Sums
    requires { StandBounds entries.now (length entries.now) }
    ensures nitrogen { result.nitrogen ≡ sum_by (weight_of (nitrogen_in list.entry.bytes.now)) entries.now }
    ensures base { result.base ≡ sum_by (weight_of (base_in list.entry.bytes.now)) entries.now }
    ensures nitrogen_le { result.nitrogen ≤ most_entries * most_nitrogen_weight }
    ensures base_le { result.base ≤ most_entries * most_base_weight }
{
    let mut nitrogen = 0;
    let mut base = 0;
    for entry in entries {
        let sums = weighed(*entry, list);
        nitrogen += sums.nitrogen;
        base += sums.base;
    }
    Sums { nitrogen, base }
}

// Bu: bases is B + w
#[tactic(auto, using(crate::proofs::Numbers::up_is), unfolding(crate::specs::Uptake::base_uptake_of))]
pub fn base_uptake(demand: u64, bases: u64, q: u64) -> u64
    ensures { (result ≡ base_uptake_of demand bases q) × (result ≤ bases) }
{
    demand.min(bases.saturating_sub(q.div_ceil(10)))
}
