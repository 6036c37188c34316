// Rules 8, 9, 10 and 16 for the stand.
ghost use Rattle.std.specs.Prelude.{◌&&◌, ◌≡◌, ◌+◌, ◌*◌, ◌≤◌, leb, eqb, length, take};
ghost use Rattle.site.specs.Ranges.{most_entries, share_range, share_sum};
ghost use Rattle.site.specs.Values.{species_ranged, entry_ranged, order_rule, entries_rule, species_known, known_rule, stand_rule};

use crate::{Entry, RecordKind, Rule, SpeciesList, Stand};

// The species numbers of a kind: 0 to 8, and where they have two bytes those of a list as well.
fn species_ranged(kind: RecordKind, n: u16) -> bool
    ensures { result ≡ species_ranged kind n }
{
    n <= 8 || kind.two_byte_species() && (256..=1023).contains(&n)
}

#[tactic(auto, unfolding(crate::specs::Values::entry_ranged))]
fn entry_ranged(kind: RecordKind, e: Entry) -> bool
    ensures { result ≡ entry_ranged kind e }
{
    species_ranged(kind, e.species) && (1..=100).contains(&e.share) && e.yield_kg <= 20000
}

// Rule 16 for one entry.
#[tactic(auto, unfolding(crate::specs::Values::species_known))]
fn species_known(e: Entry, list: SpeciesList<'_>) -> bool
    ensures { result ≡ species_known list.entry.bytes.now e }
{
    e.species <= 8 || list.lists(e.species)
}

// What the entries so far have shown, in one walk: whether their species rise, the least that the next may be, and the sum of their shares.
#[derive(Clone, Copy)]
struct Seen {
    rising: bool,
    least: usize,
    shares: usize,
}

impl Seen {
    fn with(self, e: Entry) -> Seen
        requires { self.shares ≤ share_range.most * most_entries }
        ensures { result ≡ record { rising = self.rising && leb self.least e.species; least = e.species + 1; shares = self.shares + e.share } }
    {
        let species = usize::from(e.species);
        Seen {
            rising: self.rising && self.least <= species,
            least: species + 1,
            shares: self.shares + usize::from(e.share),
        }
    }

    // Rule 9, then 10.
    fn rule(self) -> Result<(), Rule>
        ensures { result ≡ order_rule self.rising (eqb self.shares share_sum) }
    {
        if !self.rising {
            return Err(Rule::NotRising);
        }
        if self.shares != 100 {
            return Err(Rule::SharesNotWhole);
        }
        Ok(())
    }
}

impl Stand {
    // No entries stand past the fourth.
    #[tactic(auto, using(crate::proofs::PartLaws::take_min))]
    pub fn as_slice(&self) -> &[Entry]
        ensures entries { result.now ≡ take self.now.count self.now.entries }
        ensures short { length result.now ≤ 4 }
    {
        &self.entries[..usize::from(self.count).min(4)]
    }

    #[tactic(auto, using(crate::proofs::BoundsLaw::entry_bounds, crate::proofs::StandLaws::rest_rule, crate::proofs::StandLaws::no_entries, crate::proofs::StandLaws::rest_start, crate::proofs::StandLaws::rest_end, crate::proofs::StandLaws::rest_next, crate::proofs::StandLaws::rest_stop))]
    fn check_entries(&self, kind: RecordKind) -> Result<(), Rule>
        ensures { result ≡ entries_rule kind (take self.now.count self.now.entries) }
    {
        let entries = self.as_slice();
        // a reserve has none, and rules 9 and 10 don't apply to it
        if entries.is_empty() {
            return Ok(());
        }
        let mut seen = Seen {
            rising: true,
            least: 0,
            shares: 0,
        };
        for e in entries {
            if !entry_ranged(kind, *e) {
                return Err(Rule::OutOfRange);
            }
            seen = seen.with(*e);
        }
        seen.rule()
    }

    #[tactic(auto, unfolding(crate::specs::Values::known_rule))]
    fn check_known(&self, list: SpeciesList<'_>) -> Result<(), Rule>
        ensures { result ≡ known_rule list.entry.bytes.now (take self.now.count self.now.entries) }
    {
        for e in self.as_slice() {
            if !species_known(*e, list) {
                return Err(Rule::NotListed);
            }
        }
        Ok(())
    }

    #[tactic(auto, unfolding(crate::specs::Values::stand_rule, crate::specs::Refusal::and_then))]
    pub fn check(&self, kind: RecordKind, list: SpeciesList<'_>) -> Result<(), Rule>
        ensures { result ≡ stand_rule list.entry.bytes.now kind (take self.now.count self.now.entries) }
    {
        self.check_entries(kind)?;
        self.check_known(list)
    }
}
