// Weathering W.
ghost use Rattle.std.specs.Prelude.{◌≡◌, ◌≤◌, ◌*◌, ◌-◌, ◌/◌};
ghost use Rattle.site.specs.Ranges.{depth_range};
ghost use Rattle.loads.specs.MostTerms.{most_factor, most_weathering};
ghost use Rattle.loads.specs.Weathering.{weathering};

use crate::texture::texture_of;
use crate::valid::ValidSite;

// Class k by parent material 0 to 4 and texture 1 to 5.
const CLASSES: [[u64; 5]; 5] = [
    [0, 0, 0, 0, 0],
    [1, 3, 3, 6, 6],
    [2, 4, 4, 6, 6],
    [2, 4, 4, 6, 6],
    [20, 20, 20, 20, 20],
];

// W of class k, root depth z and t
#[tactic(auto, using(crate::proofs::Numbers::prod))]
fn weathered(k: u64, z: u64, t: u64) -> u64
    requires { (1 ≤ k) × (k ≤ 20) × (z ≤ depth_range.most) × (t ≤ most_factor) }
    ensures { (result ≡ (500 * k - 250) * z * t / 100000) × (result ≤ most_weathering) }
{
    (500 * k - 250) * z * t / 100_000
}

impl ValidSite<'_> {
    // W
    #[tactic(auto, using(crate::proofs::Tables::class_le, crate::proofs::Tables::class_pos, crate::proofs::TextureLaws::texture_between), unfolding(crate::specs::Weathering::weathering, crate::specs::Weathering::weathering_of, crate::specs::Weathering::class_of))]
    pub fn weathering(self) -> u64
        ensures { (result ≡ weathering self.entry.site) × (result ≤ most_weathering) }
    {
        let s = self.site;
        if s.parent == 0 {
            return 0;
        }
        let texture = texture_of(s.clay, s.sand);
        let k = CLASSES[usize::from(s.parent)][texture.place()];
        weathered(k, u64::from(s.depth), self.temperature_factor())
    }
}
