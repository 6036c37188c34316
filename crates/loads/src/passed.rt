// A site that passes the check, with the loads that its last rule works out.
ghost use Rattle.std.specs.Prelude.{◌≡◌, MatchResult, Ok, Err};
ghost use Rattle.site.specs.Refusal.{checked_number};
ghost use Rattle.loads.specs.Check.{site_rule, SiteNumbered};
ghost use Rattle.loads.specs.SiteTerms.{terms_of};
ghost use Rattle.loads.specs.MaxS.{load_rule};
ghost use Rattle.loads.specs.CriticalLoads.{loads_of};

use crate::Loads;
use crate::valid::ValidSite;
use site::{CheckedFields, Rule, Site, SpeciesList};

/// A site that passes the whole check, with the list of its species and its loads. A call that takes it need not check or work out any of them again.
#[derive(Clone, Copy)]
pub struct PassedSite<'a> {
    pub site: Site,
    pub list: SpeciesList<'a>,
    pub loads: Loads,
    ghost passed: { site_rule list.bytes.now site ≡ Ok tt },
    ghost worked_out: { loads ≡ loads_of (terms_of list.bytes.now site) },
}

impl<'a> PassedSite<'a> {
    /// The site whose fields pass, or rule 21 where its CLmaxS would be below zero.
    #[tactic(auto, unfolding(crate::specs::Check::site_rule, site::specs::Refusal::and_then))]
    pub fn of(fields: CheckedFields<'a>) -> Result<PassedSite<'a>, Rule>
        ensures { MatchResult result (λ p. (site_rule fields.entry.list.bytes.now fields.entry.site ≡ Ok tt) × (p.site ≡ fields.entry.site) × (p.list.bytes.now ≡ fields.entry.list.bytes.now)) (λ rule. site_rule fields.entry.list.bytes.now fields.entry.site ≡ Err rule) }
    {
        let CheckedFields { site, list } = fields;
        let loads = ValidSite::of(fields).loads()?;
        Ok(PassedSite { site, list, loads })
    }

    /// The site, or the first rule that it breaks: 7 to 10 and 16 by tag, then 21.
    #[tactic(auto, unfolding(crate::specs::Check::site_rule, site::specs::Refusal::and_then))]
    pub fn checked(site: Site, list: SpeciesList<'a>) -> Result<PassedSite<'a>, Rule>
        ensures { MatchResult result (λ p. (site_rule list.entry.bytes.now site ≡ Ok tt) × (p.site ≡ site) × (p.list.bytes.now ≡ list.entry.bytes.now)) (λ rule. site_rule list.entry.bytes.now site ≡ Err rule) }
    {
        PassedSite::of(CheckedFields::checked(site, list)?)
    }
}

/// Rule 21 alone: CLmaxS is not below zero. Where P is 0 it never is, so nothing is worked out.
#[tactic(auto, using(crate::proofs::CheckLaws::fields_then, crate::proofs::WithoutBicarbonateLaws::unlost_rule))]
pub fn check_load(fields: CheckedFields<'_>) -> Result<(), Rule>
    ensures { result ≡ load_rule (terms_of fields.entry.list.bytes.now fields.entry.site) }
{
    if fields.site.counted_dioxide() != 0 {
        PassedSite::of(fields)?;
    }
    Ok(())
}

/// The whole check alone: passed, or the first rule that is broken, 7 to 10 and 16 by tag, then 21.
#[tactic(auto, using(crate::proofs::CheckLaws::site_numbered), unfolding(crate::specs::Check::site_rule, site::specs::Refusal::and_then))]
pub fn check_site(site: Site, list: SpeciesList<'_>) -> Result<(), Rule>
    ensures answer { result ≡ site_rule list.entry.bytes.now site }
    ensures number { SiteNumbered (site_rule list.entry.bytes.now site) (checked_number result) }
{
    check_load(CheckedFields::checked(site, list)?)
}
