// The four loads of a site.
ghost use Rattle.std.specs.Prelude.{◌≡◌, ◌+◌, ◌≤◌, [], ◌∷◌, MatchResult, Ok, Err, pos, neg_ℤ, ◌+ℤ◌, ◌≤ℤ◌};
ghost use Rattle.loads.specs.Check.{site_rule};
ghost use Rattle.site.specs.Refusal.{values_if};
ghost use Rattle.loads.specs.MostTerms.{most_supply, most_hydrogen, most_a, most_bicarbonate};
ghost use Rattle.loads.specs.MaxS.{sign_rule, load_rule, cl_max_s};
ghost use Rattle.site.specs.Kinds.{counted_dioxide};
ghost use Rattle.loads.specs.SiteTerms.{terms_of};
ghost use Rattle.loads.specs.Hydrogen.{NetRises};
ghost use Rattle.loads.specs.WithoutBicarbonate.{unlost_answer};
ghost use Rattle.loads.specs.CriticalLoads.{cl_min_n, cl_max_n, cl_nut_n, loads_of, loads_answer, loads_values};

use crate::Loads;
use crate::hydrogen::SoilWater;
use crate::nitrogen::undenitrified_at;
use crate::passed::PassedSite;
use crate::valid::ValidSite;
use site::{Rule, Site, SpeciesList};

// The base supply and the net leaching, whose sign is tested before there is a load: rule 21 where CLmaxS would be below zero.
fn load_of(supply: u64, net: i64) -> Result<u64, Rule>
    requires { (supply ≤ most_supply) × (neg_ℤ (pos most_bicarbonate) ≤ℤ net) × (net ≤ℤ pos (most_hydrogen + most_a)) }
    ensures { MatchResult result (λ c. pos supply +ℤ net ≡ pos c) (λ rule. sign_rule (pos supply +ℤ net) ≡ Err rule) }
{
    if net < 0 {
        let lost = net.unsigned_abs();
        if supply < lost {
            return Err(Rule::LoadBelowZero);
        }
        return Ok(supply - lost);
    }
    Ok(supply + net as u64)
}

impl ValidSite<'_> {
    // CLmaxS
    #[tactic(auto, using(crate::proofs::SiteTermLaws::term_bounds))]
    fn max_s(self) -> Result<u64, Rule>
        ensures { let t = terms_of self.entry.list.bytes.now self.entry.site in MatchResult result (λ c. (load_rule t ≡ Ok tt) × (c ≡ cl_max_s t)) (λ rule. load_rule t ≡ Err rule) }
    {
        let s = self.site;
        let bases = self.bases();
        let water = SoilWater {
            percolation: u64::from(s.percolation),
            gibbsite: u64::from(s.gibbsite),
            limit: bases.limit,
            ceiling: u64::from(s.ceiling),
        };
        load_of(bases.supply, water.leaching(u64::from(s.counted_dioxide())))
    }

    #[tactic(auto, using(crate::proofs::SiteTermLaws::term_bounds, crate::proofs::TermLaws::cl_max_s_le, crate::proofs::DenitrifiedLaws::undenitrified_least, crate::proofs::DenitrifiedLaws::e_is, crate::proofs::SiteTermLaws::cl_min_n_plain), unfolding(crate::specs::CriticalLoads::loads_of, crate::specs::CriticalLoads::cl_max_n, crate::specs::CriticalLoads::cl_nut_n))]
    pub fn loads(self) -> Result<Loads, Rule>
        ensures { let t = terms_of self.entry.list.bytes.now self.entry.site in MatchResult result (λ l. (load_rule t ≡ Ok tt) × (l ≡ loads_of t)) (λ rule. load_rule t ≡ Err rule) }
    {
        let s = self.site;
        let max_s = self.max_s()?;
        let min_n = self.sums.nitrogen / 10_000_000 + u64::from(s.immobilisation);
        let leached = self.leaching();
        let e = undenitrified_at(s);
        Ok(Loads {
            max_s,
            min_n,
            max_n: min_n + 1000 * max_s / e,
            nut_n: min_n + 1000 * leached / e,
        })
    }
}

// The loads of a site, or the first rule that it breaks.
#[tactic(auto, using(crate::proofs::TermLaws::net_rises_lem, crate::proofs::WithoutBicarbonateLaws::unlost_refused, crate::proofs::WithoutBicarbonateLaws::unlost_given), unfolding(crate::specs::CriticalLoads::loads_answer, crate::specs::CriticalLoads::loads_values, crate::specs::CriticalLoads::load_numbers, crate::specs::CriticalLoads::loads_of, site::specs::Refusal::values_if, site::specs::Refusal::and_then))]
pub fn critical_loads(site: Site, list: SpeciesList<'_>) -> Result<Loads, Rule>
    ensures answer { result ≡ loads_answer list.entry.bytes.now site }
    ensures values { let t = terms_of list.entry.bytes.now site in loads_values result ≡ values_if (site_rule list.entry.bytes.now site) (cl_max_s t ∷ cl_min_n t ∷ cl_max_n t ∷ cl_nut_n t ∷ []) }

    // The net that M is taken from rises with the level.
    ensures net { NetRises (terms_of list.entry.bytes.now site) }

    // Without soil carbon dioxide nothing is lost, and no site is refused by 21.
    ensures unlost { counted_dioxide site ≡ 0 → result ≡ unlost_answer list.entry.bytes.now site }
{
    Ok(PassedSite::checked(site, list)?.loads)
}
