// The search with the values of a site and its aluminium limit.
ghost use Rattle.std.specs.Prelude.{◌≡◌};
ghost use Rattle.loads.specs.Check.{site_rule};
ghost use Rattle.site.specs.Refusal.{values_if};
ghost use Rattle.loads.specs.SiteTerms.{terms_of};
ghost use Rattle.loads.specs.Search.{level_numbers, FewAt, level_values};
ghost use Rattle.level.specs.SiteLevel.{site_level};

use loads::{Searched, aluminium_limit, greatest_level};
use site::{Rule, Site, SpeciesList};

// The greatest allowed level of a site, and how many levels were compared with its aluminium limit; or the first rule that it breaks.
#[tactic(auto, using(crate::proofs::SiteLevelLaws::by_limit, crate::proofs::SiteLevelLaws::by_refusal, crate::proofs::SiteLevelLaws::site_level_values, crate::proofs::SiteLevelLaws::few_found))]
pub fn level_at(site: Site, list: SpeciesList<'_>) -> Result<Searched, Rule>
    ensures answer { result ≡ site_level list.entry.bytes.now site }
    ensures values { level_values result ≡ values_if (site_rule list.entry.bytes.now site) (level_numbers (terms_of list.entry.bytes.now site)) }
    ensures count { (found : Searched) → result ≡ Ok found → FewAt (terms_of list.entry.bytes.now site) found.compared }
{
    let limit = aluminium_limit(site, list)?;
    greatest_level(site.percolation, site.gibbsite, limit, site.ceiling)
}
