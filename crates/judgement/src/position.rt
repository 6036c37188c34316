// A pair S, N beside the loads of its site: what regions and exceedances are made of.
ghost use Rattle.std.specs.Prelude.{◌≡◌, ◌*◌, ◌-◌, ◌≤◌, ◌<◌};
ghost use Rattle.loads.specs.CriticalLoads.{loads_of};
ghost use Rattle.loads.specs.SiteTerms.{terms_of};
ghost use Rattle.site.specs.Ranges.{deposition_range};
ghost use Rattle.loads.specs.MostTerms.{most_max_s};
ghost use Rattle.judgement.specs.Regions.{D, excess};

use loads::{Loads, PassedSite, undenitrified_at};

// The ghost fields keep every product of these within 64 bits.
#[derive(Clone, Copy)]
pub struct Position {
    pub sulphur: u64,
    pub nitrogen: u64,
    pub loads: Loads,
    // e, the part that is not denitrified, per mille
    pub undenitrified: u64,
    ghost sulphur_fits: { sulphur ≤ deposition_range.most },
    ghost nitrogen_fits: { nitrogen ≤ deposition_range.most },
    ghost load_fits: { loads.max_s ≤ most_max_s },
    ghost some_left: { 1 ≤ undenitrified },
    ghost no_more_left: { undenitrified ≤ 1000 },
}

impl Position {
    // The position of the own pair of a site that passes.
    #[tactic(auto, using(loads::proofs::DenitrifiedLaws::e_is))]
    pub fn of(passed: PassedSite<'_>) -> Position
        ensures { let s = passed.entry.site in let t = terms_of passed.entry.list.bytes.now s in (result.sulphur ≡ s.sulphur) × (result.nitrogen ≡ s.nitrogen) × (result.loads ≡ loads_of t) × (result.undenitrified ≡ t.e) }
    {
        let site = passed.site;
        Position {
            sulphur: u64::from(site.sulphur),
            nitrogen: u64::from(site.nitrogen),
            loads: passed.loads,
            undenitrified: undenitrified_at(site),
        }
    }

    // n = N − CLminN, or 0 where that is less
    pub fn left(self) -> u64
        ensures { (result ≡ self.nitrogen - self.loads.min_n) × (result ≤ deposition_range.most) }
    {
        self.nitrogen.saturating_sub(self.loads.min_n)
    }

    // v, or 0 where that is less
    #[tactic(auto, unfolding(crate::specs::Regions::excess))]
    pub fn excess(self) -> u64
        ensures { (result ≡ excess self.sulphur self.loads.max_s self.undenitrified (self.nitrogen - self.loads.min_n)) × (result ≤ 2000 * deposition_range.most) }
    {
        let acid = 1000 * self.sulphur + self.undenitrified * self.left();
        acid.saturating_sub(1000 * self.loads.max_s)
    }

    // D
    #[tactic(auto, unfolding(crate::specs::Regions::D))]
    pub fn divisor(self) -> u64
        ensures { (result ≡ D self.undenitrified) × (0 < result) × (result ≤ 2000000) }
    {
        1_000_000 + self.undenitrified * self.undenitrified
    }
}
