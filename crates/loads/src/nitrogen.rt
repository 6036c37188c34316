// The part of nitrogen that is not denitrified, and the acceptable leaching.
ghost use Rattle.std.specs.Prelude.{◌≡◌, ◌≤◌};
ghost use Rattle.loads.specs.MostTerms.{most_l, most_d};
ghost use Rattle.loads.specs.Nitrogen.{denitrified, undenitrified};
ghost use Rattle.loads.specs.SiteTerms.{terms_of};

use crate::valid::ValidSite;
use site::Site;

// d by drainage 0 to 5, per mille, where the parent material is not organic.
const DRAINAGE_PARTS: [u64; 6] = [0, 100, 200, 400, 700, 800];

// d: 800 for organic parent material, else by drainage. Past class 5, which no site that passes has, the definition takes 0.
#[tactic(auto, using(crate::proofs::DenitrifiedLaws::organic_part, crate::proofs::DenitrifiedLaws::mineral_part, crate::proofs::Tables::drainage_part_le))]
fn denitrified_of(parent: u8, drainage: u8) -> u64
    ensures { (result ≡ denitrified parent drainage) × (result ≤ most_d) }
{
    if parent == 0 {
        return 800;
    }
    DRAINAGE_PARTS
        .get(usize::from(drainage))
        .copied()
        .unwrap_or(0)
}

// e at a site
#[tactic(auto, using(crate::proofs::DenitrifiedLaws::undenitrified_by))]
pub fn undenitrified_at(s: Site) -> u64
    ensures { result ≡ undenitrified s }
{
    1000 - denitrified_of(s.parent, s.drainage)
}

impl ValidSite<'_> {
    // L
    #[tactic(auto, using(crate::proofs::Numbers::prod, crate::proofs::SiteTermLaws::leaching_is))]
    pub fn leaching(self) -> u64
        ensures { (result ≡ (terms_of self.entry.list.bytes.now self.entry.site).L) × (result ≤ most_l) }
    {
        u64::from(self.site.percolation) * u64::from(self.site.leachate) / 100
    }
}
