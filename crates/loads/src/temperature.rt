// t, by which weathering depends on temperature.
ghost use Rattle.std.specs.Prelude.{◌≡◌, ◌≤◌};
ghost use Rattle.loads.specs.MostTerms.{most_factor};
ghost use lib.IntN.{pos};
ghost use Rattle.site.specs.Kinds.{counted_temperature};
ghost use Rattle.loads.specs.Temperature.{factor_by_rule, temperature_factor};

use crate::valid::ValidSite;

// t in per mille, by the temperature byte 0 to 25.
const FACTORS: [u16; 26] = [
    537, 565, 593, 623, 654, 687, 721, 756, 793, 831, 871, 912, 955, 1000, 1046, 1095, 1145, 1197,
    1251, 1307, 1365, 1426, 1488, 1553, 1620, 1690,
];

impl ValidSite<'_> {
    // t
    pub fn temperature_factor(self) -> u64
        ensures value { result ≡ temperature_factor self.entry.site }
        ensures rule { factor_by_rule (counted_temperature self.entry.site) ≡ pos result }
        ensures most { result ≤ most_factor }
    {
        u64::from(FACTORS[usize::from(self.site.counted_temperature())])
    }
}
