// The acid exceedance of a pair.
ghost use Rattle.std.specs.Prelude.{◌≡◌};
ghost use Rattle.judgement.specs.Regions.{Lies, acid_in};

use crate::Region;
use crate::position::Position;

impl Position {
    // In the region where the pair lies; there no difference is below 0.
    #[tactic(auto, using(loads::proofs::Numbers::up_is, crate::proofs::NotCutOff::in_one, crate::proofs::NotCutOff::in_three, crate::proofs::NotCutOff::in_four), unfolding(crate::specs::Regions::acid_in))]
    pub fn acid(self, region: Region) -> u64
        requires { Lies self.sulphur self.nitrogen self.loads.max_s self.loads.min_n self.undenitrified region }
        ensures { result ≡ acid_in region self.sulphur self.nitrogen self.loads.max_s self.loads.min_n self.undenitrified }
    {
        let left = self.left();
        let c = self.loads.max_s;
        let e = self.undenitrified;
        match region {
            Region::AcidKept => 0,
            Region::NoSulphur => self.sulphur + (e * left - 1000 * c).div_ceil(e),
            Region::Slope => ((1000 + e) * self.excess()).div_ceil(self.divisor()),
            Region::Corner => left + self.sulphur - c,
            Region::SulphurOnly => self.sulphur - c,
        }
    }
}
