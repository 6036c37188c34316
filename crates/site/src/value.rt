// Rules 8, 9, 10 and 16 of a site's field with a given tag: the byte of the file, of which any can come.
ghost use Rattle.std.specs.Prelude.{◌≡◌};
ghost use Rattle.site.specs.Values.{value_rule};

use crate::ranges::{
    AVAILABLE, BASE_DEPOSITION, CEILING, DEPTH, DIOXIDE, DRAINAGE, GIBBSITE, IMMOBILISATION,
    LEACHATE, PARENT, PERCOLATION, RATIO, TEMPERATURE, texture_rule,
};
use crate::{Rule, Site, SpeciesList};

#[tactic(auto, using(crate::proofs::MatchLaws::none_below, crate::proofs::FieldLaws::value_none), unfolding(crate::specs::Values::value_rule))]
#[inline(always)]
pub fn value_rule(site: &Site, tag: u8, list: SpeciesList<'_>) -> Result<(), Rule>
    ensures { result ≡ value_rule list.entry.bytes.now site.now.kind tag site.now }
{
    match tag {
        1 => site.name.check(),
        2 => PARENT.check(u16::from(site.parent)),
        3 => texture_rule(site.clay, site.sand),
        4 => DEPTH.check(u16::from(site.depth)),
        5 => DRAINAGE.check(u16::from(site.drainage)),
        6 => PERCOLATION.check(site.percolation),
        7 => site.stand.check(site.kind, list),
        8 => IMMOBILISATION.check(site.immobilisation),
        9 => AVAILABLE.check(u16::from(site.available)),
        10 => BASE_DEPOSITION.check(site.base_deposition),
        11 => RATIO.check(site.ratio),
        12 => GIBBSITE.check(site.gibbsite),
        13 => CEILING.check(site.ceiling),
        14 => LEACHATE.check(site.leachate),
        // the deposition's range is all that two bytes hold
        15 => Ok(()),
        16 => TEMPERATURE.check(u16::from(site.temperature)),
        17 => DIOXIDE.check(site.dioxide),
        _ => Ok(()),
    }
}
