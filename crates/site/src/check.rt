// The check of a site value: rules 7 to 10 and 16 in the order of its kind's tags.
ghost use Rattle.std.specs.Prelude.{◌≡◌, ◌+◌, ◌≤◌};
ghost use Rattle.site.specs.Check.{due_rule, rest_rule};
ghost use Rattle.site.specs.Refusal.{and_then, checked_number, Numbered};
ghost use Rattle.site.specs.Values.{count_rule, value_rule};

use crate::length::count_rule;
use crate::value::value_rule;
use crate::{Rule, Site, SpeciesList};

#[tactic(auto, unfolding(crate::specs::Refusal::and_then))]
#[inline(always)]
fn check_field(site: &Site, tag: u8, list: SpeciesList<'_>) -> Result<(), Rule>
    ensures { result ≡ and_then (count_rule tag site.now) (value_rule list.entry.bytes.now site.now.kind tag site.now) }
{
    count_rule(site, tag)?;
    value_rule(site, tag, list)
}

// Five fields of those that every kind has, from tag t on. With no loop each tag is a constant where this is written in, and its rule a few tests.
#[tactic(auto, using(crate::proofs::Tags::first_fifteen, crate::proofs::FieldLaws::five_next), unfolding(crate::specs::Refusal::and_then))]
#[inline(always)]
fn check_five(site: &Site, t: u8, list: SpeciesList<'_>) -> Result<(), Rule>
    requires { t + 4 ≤ 15 }
    ensures { and_then result (rest_rule list.entry.bytes.now (t + 5) site.now) ≡ rest_rule list.entry.bytes.now t site.now }
{
    check_field(site, t, list)?;
    check_field(site, t + 1, list)?;
    check_field(site, t + 2, list)?;
    check_field(site, t + 3, list)?;
    check_field(site, t + 4, list)
}

/// The rules of the fields of a site value, 7 to 10 and 16, in the order of its kind's tags: passed, or the first that is broken. What the whole check asks beyond
/// them is `check_load` of `loads`.
#[tactic(auto, using(crate::proofs::FieldLaws::fields_all, crate::proofs::FieldLaws::fields_next, crate::proofs::NumberLaws::numbered, crate::proofs::NumberLaws::known_site), unfolding(crate::specs::Check::due_rule, crate::specs::Check::fields_rule, crate::specs::Refusal::and_then))]
pub fn check_due(site: Site, list: SpeciesList<'_>) -> Result<(), Rule>
    ensures answer { result ≡ due_rule list.entry.bytes.now site }
    ensures number { Numbered (due_rule list.entry.bytes.now site) (checked_number result) }
{
    check_five(&site, 1, list)?;
    check_five(&site, 6, list)?;
    check_five(&site, 11, list)?;
    for tag in 16..site.kind.end() {
        check_field(&site, tag, list)?;
    }
    Ok(())
}
