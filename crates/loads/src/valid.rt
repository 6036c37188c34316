// A site whose fields pass the check, with the sums over its stand.
ghost use Rattle.std.specs.Prelude.{◌≡◌};
ghost use Rattle.site.specs.Bounds.{Bounds};
ghost use Rattle.loads.specs.Uptake.{nitrogen_in, base_in, stand_sum};

use crate::uptake::{Sums, stand_sums};
use site::{CheckedFields, Site, SpeciesList};

// A site whose fields pass the check, with the list of its species and the sums over its stand.
#[derive(Clone, Copy)]
pub struct ValidSite<'a> {
    pub site: Site,
    pub list: SpeciesList<'a>,
    pub sums: Sums,
    ghost bounds: { Bounds site },
    ghost nitrogen: { sums.nitrogen ≡ stand_sum (nitrogen_in list.bytes.now) site.stand.entries site.stand.count },
    ghost base: { sums.base ≡ stand_sum (base_in list.bytes.now) site.stand.entries site.stand.count },
}

impl<'a> ValidSite<'a> {
    #[tactic(auto, using(site::proofs::BoundsLaw::bounds, crate::proofs::UptakeLaws::entries_bounds), unfolding(crate::specs::Uptake::stand_sum))]
    pub fn of(fields: CheckedFields<'a>) -> ValidSite<'a>
        ensures { (result.site ≡ fields.entry.site) × (result.list.bytes.now ≡ fields.entry.list.bytes.now) }
    {
        let CheckedFields { site, list } = fields;
        let sums = stand_sums(site.stand.as_slice(), list);
        ValidSite { site, list, sums }
    }
}
