// The hydrogen level: the search for the greatest allowed one, and what is leached there.
ghost use Rattle.std.specs.Prelude.{◌≡◌, ◌+◌, ◌≤◌, [], ◌∷◌, ◌<◌, ◌^◌, length, pos, neg_ℤ, ◌-ℤ◌, ◌≤ℤ◌};
ghost use Rattle.site.specs.Refusal.{values_if};
ghost use Rattle.site.specs.Ranges.{dioxide_range};
ghost use Rattle.loads.specs.MostTerms.{most_hydrogen, most_bicarbonate};
ghost use Rattle.loads.specs.Hydrogen.{hydrogen_of, al_of, bicarbonate_of, within_limit, level_of};
ghost use Rattle.loads.specs.Search.{compared_of, searched_of, FewCompared, level_rule, level_answer, level_values};
ghost use Rattle.loads.specs.Hydrogen.{Levels};

use crate::Searched;
use site::{CEILING, GIBBSITE, PERCOLATION, Rule};

// The water that leaves the root zone, by which a hydrogen level is allowed or not: percolation, gibbsite constant, aluminium limit and hydrogen ceiling.
#[derive(Clone, Copy)]
pub struct SoilWater {
    pub percolation: u64,
    pub gibbsite: u64,
    pub limit: u64,
    pub ceiling: u64,
    ghost levels: { Levels percolation gibbsite ceiling },
}

impl SoilWater {
    // al(h)
    #[tactic(auto, using(crate::proofs::LevelLaws::cube_le, crate::proofs::LevelLaws::qk_le, crate::proofs::LevelLaws::al_le), unfolding(crate::specs::Hydrogen::al_of))]
    fn aluminium(self, h: u64) -> u64
        requires { h ≤ self.ceiling }
        ensures { result ≡ al_of self.percolation self.gibbsite h }
    {
        self.percolation * self.gibbsite * h.pow(3) / 1_000_000_000_000
    }

    // whether al(h) is within the limit
    fn allows(self, h: u64) -> bool
        requires { h ≤ self.ceiling }
        ensures { result ≡ within_limit self.percolation self.gibbsite self.limit h }
    {
        self.aluminium(h) <= self.limit
    }

    // The greatest allowed level, from the ceiling down: low is the greatest level known allowed, high the least known not.
    #[tactic(auto, using(crate::proofs::SearchLaws::search_at_once, crate::proofs::SearchLaws::search_starts))]
    fn search(self) -> Searched
        ensures { result ≡ searched_of self.percolation self.gibbsite self.limit self.ceiling }
    {
        if self.allows(self.ceiling) {
            return Searched {
                level: self.ceiling,
                compared: 1,
            };
        }
        let mut low = 0;
        let mut high = self.ceiling;
        let mut compared = 1;
        // each turn halves what lies between, so that a `for` has nothing to run over
        while low + 1 < high {
            let middle = (low + high) / 2;
            compared += 1;
            if self.allows(middle) {
                low = middle;
            } else {
                high = middle;
            }
        }
        Searched {
            level: low,
            compared,
        }
    }

    // bicarbonate, for soil carbon dioxide p
    #[tactic(auto, using(crate::proofs::Numbers::prod, crate::proofs::Numbers::up_is, crate::proofs::NetLaws::bicarbonate_le), unfolding(crate::specs::Hydrogen::bicarbonate_of))]
    fn bicarbonate(self, p: u64, h: u64) -> u64
        requires { (p ≤ dioxide_range.most) × (1 ≤ h) × (h ≤ self.ceiling) }
        ensures { (result ≡ bicarbonate_of self.percolation p h) × (result ≤ most_bicarbonate) }
    {
        (self.percolation * p).div_ceil(50 * h)
    }

    // M, for soil carbon dioxide p
    #[tactic(auto, using(crate::proofs::Numbers::prod, crate::proofs::LevelLaws::level_le, crate::proofs::LevelLaws::level_least, crate::proofs::LevelLaws::level_allowed, crate::proofs::LevelLaws::al_of_bound), unfolding(crate::specs::Search::searched_of, crate::specs::Hydrogen::hydrogen_of))]
    pub fn leaching(self, p: u64) -> i64
        requires { p ≤ dioxide_range.most }
        ensures value { let h = level_of self.percolation self.gibbsite self.limit self.ceiling in result ≡ pos (hydrogen_of self.percolation h + al_of self.percolation self.gibbsite h) -ℤ pos (bicarbonate_of self.percolation p h) }
        ensures most { result ≤ℤ pos (most_hydrogen + self.limit) }
        ensures least { neg_ℤ (pos most_bicarbonate) ≤ℤ result }
    {
        let h = self.search().level;
        net_of(
            self.percolation * h / 1000,
            self.aluminium(h),
            self.bicarbonate(p, h),
        )
    }
}

// Hydrogen plus aluminium less bicarbonate, which may be below zero.
fn net_of(hydrogen: u64, aluminium: u64, bicarbonate: u64) -> i64
    requires { (hydrogen < 2 ^ 32) × (aluminium < 2 ^ 32) × (bicarbonate < 2 ^ 32) }
    ensures value { result ≡ pos (hydrogen + aluminium) -ℤ pos bicarbonate }
    ensures most { result ≤ℤ pos (hydrogen + aluminium) }
    ensures least { neg_ℤ (pos bicarbonate) ≤ℤ result }
{
    hydrogen as i64 + aluminium as i64 - bicarbonate as i64
}

// Rule 8 for percolation, gibbsite constant and hydrogen ceiling.
#[tactic(auto, unfolding(crate::specs::Search::level_rule, site::specs::Refusal::and_then))]
fn level_rule(q: u16, k: u16, ceiling: u16) -> Result<(), Rule>
    ensures { result ≡ level_rule q k ceiling }
{
    PERCOLATION.check(q)?;
    GIBBSITE.check(k)?;
    CEILING.check(ceiling)
}

// The greatest allowed level for percolation q, gibbsite constant k, aluminium limit and hydrogen ceiling, and how many levels were compared.
#[tactic(auto, using(crate::proofs::LevelAnswers::level_passed, crate::proofs::SearchLaws::few_compared), unfolding(crate::specs::Search::level_answer, crate::specs::Search::level_values, crate::specs::Search::searched_of, crate::specs::Search::searched_numbers, site::specs::Refusal::values_if, site::specs::Refusal::and_then))]
pub fn greatest_level(q: u16, k: u16, limit: u64, ceiling: u16) -> Result<Searched, Rule>
    ensures answer { result ≡ level_answer q k limit ceiling }
    ensures values { level_values result ≡ values_if (level_rule q k ceiling) (level_of q k limit ceiling ∷ length (compared_of q k limit ceiling) ∷ []) }
    ensures count { (found : Searched) → result ≡ Ok found → FewCompared q k limit ceiling found.compared }
{
    level_rule(q, k, ceiling)?;
    let water = SoilWater {
        percolation: u64::from(q),
        gibbsite: u64::from(k),
        limit,
        ceiling: u64::from(ceiling),
    };
    Ok(water.search())
}
