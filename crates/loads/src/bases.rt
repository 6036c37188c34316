// The bases that uptake leaves: the base supply, and the aluminium limit.
ghost use Rattle.std.specs.Prelude.{◌≡◌, [], ◌∷◌};
ghost use Rattle.loads.specs.Check.{site_rule};
ghost use Rattle.site.specs.Refusal.{values_if};
ghost use Rattle.loads.specs.SiteTerms.{terms_of};
ghost use Rattle.loads.specs.Limits.{limit_answer, limit_values};

use crate::passed::check_load;
use crate::uptake::base_uptake;
use crate::valid::ValidSite;
use site::{CheckedFields, Rule, Site, SpeciesList};

// B + W − Bu, and A
#[derive(Clone, Copy)]
pub struct Bases {
    pub supply: u64,
    pub limit: u64,
}

impl ValidSite<'_> {
    // of a site
    #[tactic(auto, using(crate::proofs::SiteTermLaws::weathering_is, crate::proofs::SiteTermLaws::available_is, crate::proofs::SiteTermLaws::demand_is, crate::proofs::SiteTermLaws::uptake_is, crate::proofs::SiteTermLaws::supply_is, crate::proofs::SiteTermLaws::limit_is))]
    pub fn bases(self) -> Bases
        ensures { (result.supply ≡ (terms_of self.entry.list.bytes.now self.entry.site).supply) × (result.limit ≡ (terms_of self.entry.list.bytes.now self.entry.site).A) }
    {
        let s = self.site;
        let deposited = u64::from(s.base_deposition);
        let weathered = self.weathering();
        let available = weathered * u64::from(s.available) / 100;
        let bases = deposited + available;
        let demand = self.sums.base.div_ceil(10_000_000);
        let taken = base_uptake(demand, bases, u64::from(s.percolation));
        Bases {
            supply: deposited + weathered - taken,
            limit: 1500 * (bases - taken) / u64::from(s.ratio),
        }
    }
}

// The aluminium limit of a site, or the first rule that it breaks.
#[tactic(auto, unfolding(crate::specs::Check::site_rule, crate::specs::Limits::limit_answer, crate::specs::Limits::limit_values, site::specs::Refusal::values_if, site::specs::Refusal::and_then))]
pub fn aluminium_limit(site: Site, list: SpeciesList<'_>) -> Result<u64, Rule>
    ensures answer { result ≡ limit_answer list.entry.bytes.now site }
    ensures values { limit_values result ≡ values_if (site_rule list.entry.bytes.now site) ((terms_of list.entry.bytes.now site).A ∷ []) }
{
    let fields = CheckedFields::checked(site, list)?;
    check_load(fields)?;
    Ok(ValidSite::of(fields).bases().limit)
}
