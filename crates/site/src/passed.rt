// A site whose fields pass.
ghost use Rattle.std.specs.Prelude.{◌≡◌, MatchResult, Ok, Err};
ghost use Rattle.site.specs.Check.{due_rule};

use crate::check::check_due;
use crate::{Rule, Site, SpeciesList};

/// A site whose fields pass their rules, with the list of its species. A call that takes it need not check them again.
#[derive(Clone, Copy)]
pub struct CheckedFields<'a> {
    pub site: Site,
    pub list: SpeciesList<'a>,
    ghost passed: { due_rule list.bytes.now site ≡ Ok tt },
}

impl<'a> CheckedFields<'a> {
    /// The site, or the first of rules 7 to 10 and 16 that it breaks, by tag.
    pub fn checked(site: Site, list: SpeciesList<'a>) -> Result<CheckedFields<'a>, Rule>
        ensures { MatchResult result (λ p. (due_rule list.entry.bytes.now site ≡ Ok tt) × (p.site ≡ site) × (p.list.bytes.now ≡ list.entry.bytes.now)) (λ rule. due_rule list.entry.bytes.now site ≡ Err rule) }
    {
        check_due(site, list)?;
        Ok(CheckedFields { site, list })
    }
}
