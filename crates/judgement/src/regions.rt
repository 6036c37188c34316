// The acid region of a pair.
ghost use Rattle.std.specs.Prelude.{◌≡◌};
ghost use Rattle.judgement.specs.Regions.{region_number, region_of};

use crate::Region;
use crate::position::Position;

impl From<Region> for u64 {
    ghost from_gives = { λ region n. n ≡ region_number region };

    fn from(region: Region) -> u64 {
        // the number of its case, which a match would only write out
        region as u64
    }
}

impl Position {
    // The first region that applies.
    #[tactic(auto, unfolding(crate::specs::Regions::region_of, crate::specs::Regions::excess))]
    pub fn region(self) -> Region
        ensures { result ≡ region_of self.sulphur self.nitrogen self.loads.max_s self.loads.min_n self.undenitrified }
    {
        let left = self.left();
        let v = self.excess();
        let d = self.divisor();
        if self.sulphur <= self.loads.max_s && (left == 0 || v == 0) {
            Region::AcidKept
        } else if left == 0 {
            Region::SulphurOnly
        } else if left * d < self.undenitrified * v {
            Region::Corner
        } else if self.sulphur * d < 1000 * v {
            Region::NoSulphur
        } else {
            Region::Slope
        }
    }
}
