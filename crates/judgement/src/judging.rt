// The verdict, and the call open to users.
ghost use Rattle.std.specs.Prelude.{◌≡◌, ◌↔◌, ◌-◌, Ok};
ghost use Rattle.site.specs.Check.{due_rule};
ghost use Rattle.site.specs.Kinds.{counted_dioxide};
ghost use Rattle.loads.specs.Check.{site_rule};
ghost use Rattle.site.specs.Refusal.{values_if};
ghost use Rattle.loads.specs.SiteTerms.{terms_of};
ghost use Rattle.judgement.specs.Regions.{region_of, acid_of};
ghost use Rattle.judgement.specs.Verdicts.{verdict_of, verdict_word};
ghost use Rattle.judgement.specs.Answers.{judged_of, judgement_answer, judgement_values, pair_values};
ghost use Rattle.judgement.specs.Balance.{RefusedBelowZero, Says};
ghost use Rattle.judgement.specs.declared.Verdict.TheVariants.{Within};
ghost use Rattle.judgement.specs.WithoutBicarbonate.{unlost_judgement, ClosesUnlost};

use crate::position::Position;
use crate::{Judged, Region, Verdict};
use loads::PassedSite;
use site::{Rule, Site, SpeciesList};

impl Position {
    // Within needs region 0 and nutrient exceedance 0.
    #[tactic(auto, using(crate::proofs::RegionLaws::lies_in), unfolding(crate::specs::Regions::acid_of, crate::specs::Verdicts::verdict_of))]
    fn verdict(self) -> Verdict
        ensures { let l = self.loads in result ≡ verdict_of (region_of self.sulphur self.nitrogen l.max_s l.min_n self.undenitrified) (acid_of self.sulphur self.nitrogen l.max_s l.min_n self.undenitrified) (self.nitrogen - l.nut_n) }
    {
        let region = self.region();
        let nutrient = self.nitrogen.saturating_sub(self.loads.nut_n);
        match (region, nutrient) {
            (Region::AcidKept, 0) => Verdict::Within,
            _ => Verdict::Over {
                region,
                acid: self.acid(region),
                nutrient,
            },
        }
    }
}

// The loads of a site that passes, and the verdict on its own pair.
#[tactic(auto, using(crate::proofs::JudgementAnswers::verdict_by_loads, crate::proofs::JudgementAnswers::judged_says), unfolding(crate::specs::Answers::judged_of))]
pub fn judge_passed(passed: PassedSite<'_>) -> Judged
    ensures answer { result ≡ judged_of passed.entry.list.bytes.now passed.entry.site }
    ensures demand3 { Says passed.entry.list.bytes.now (verdict_word result.verdict) passed.entry.site }
{
    let pair = Position::of(passed);
    Judged {
        loads: pair.loads,
        verdict: pair.verdict(),
    }
}

// The loads of a site and the verdict on its own pair, or the first rule that it breaks.
#[tactic(auto, using(crate::proofs::JudgementAnswers::judged_values_lem), unfolding(crate::specs::Answers::judgement_answer, crate::specs::Answers::judgement_values, site::specs::Refusal::values_if, site::specs::Refusal::and_then))]
pub fn judge(site: Site, list: SpeciesList<'_>) -> Result<Judged, Rule>
    ensures answer { result ≡ judgement_answer list.entry.bytes.now site }
    ensures values { judgement_values result ≡ values_if (site_rule list.entry.bytes.now site) (pair_values (terms_of list.entry.bytes.now site) site.sulphur site.nitrogen) }
    ensures demand3 { (j : Judged) → result ≡ Ok j → Says list.entry.bytes.now (verdict_word j.verdict) site }

    // CLmaxS below zero: 21, exactly where no pair at all closes the acid balance.
    ensures below_zero { due_rule list.entry.bytes.now site ≡ Ok tt → RefusedBelowZero list.entry.bytes.now site result }

    // Without soil carbon dioxide nothing is lost, and the mark is that of the balances without bicarbonate.
    ensures unlost { counted_dioxide site ≡ 0 → result ≡ unlost_judgement list.entry.bytes.now site }
    ensures unlost_mark { (j : Judged) → result ≡ Ok j → counted_dioxide site ≡ 0 → (j.verdict ≡ Within) ↔ ClosesUnlost (terms_of list.entry.bytes.now site) site.sulphur site.nitrogen }
{
    Ok(judge_passed(PassedSite::checked(site, list)?))
}
