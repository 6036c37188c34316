// The pair of the sampler's months, judged as when entered by key.
ghost use Rattle.std.specs.Prelude.{◌≡◌};
ghost use Rattle.loads.specs.Check.{site_rule};
ghost use Rattle.site.specs.Refusal.{values_if, unless};
ghost use Rattle.loads.specs.SiteTerms.{terms_of};
ghost use Rattle.judgement.specs.Answers.{judgement_answer};
ghost use Rattle.judgement.specs.Balance.{Tells};
ghost use Rattle.judgement.specs.Verdicts.{verdict_word, within, over};
ghost use Rattle.sampler.specs.YearPair.{year_of};
ghost use Rattle.sampler.specs.SampleAnswers.{with_pair, keyed, sample_answer, ByKey, sample_values, year_values};

use crate::years::year_pair;
use crate::{Month, Pair, Sampled};
use judgement::judge;
use loads::check_site;
use site::{Refusal, Site, SpeciesList};

// The site with the pair put into its field 0F.
#[tactic(auto, unfolding(crate::specs::SampleAnswers::with_pair))]
fn with_pair(site: Site, pair: Pair) -> Site
    ensures { result ≡ with_pair site pair }
{
    Site {
        sulphur: pair.sulphur,
        nitrogen: pair.nitrogen,
        ..site
    }
}

#[tactic(auto, unfolding(crate::specs::SampleAnswers::keyed))]
fn judge_pair(site: Site, list: SpeciesList<'_>, pair: Pair) -> Result<Sampled, Refusal>
    ensures { result ≡ keyed pair (judgement_answer list.entry.bytes.now (with_pair site pair)) }
{
    let judged = judge(with_pair(site, pair), list)?;
    Ok(Sampled { pair, judged })
}

// A refusal that comes after the checks of the site.
#[tactic(auto, unfolding(site::specs::Refusal::unless))]
pub fn refuse_checked(
    site: Site,
    list: SpeciesList<'_>,
    refusal: Refusal,
) -> Result<Sampled, Refusal>
    ensures { result ≡ unless (site_rule list.entry.bytes.now site) 0 (Err refusal) }
{
    check_site(site, list)?;
    Err(refusal)
}

// A refusal stands at 0 for the site, at the month's index, or at 12 for the year.
// The year comes first: where it has a pair, the judgement's own check is the site's, so that a site is checked once.
pub fn judge_months(
    site: Site,
    list: SpeciesList<'_>,
    months: [Month; 12],
) -> Result<Sampled, Refusal>
    ensures answer { result ≡ sample_answer list.entry.bytes.now site months }
    ensures values { sample_values result ≡ values_if (site_rule list.entry.bytes.now site) (year_values (terms_of list.entry.bytes.now site) (year_of months)) }
    ensures by_key { (p : Sampled) → result ≡ Ok p → ByKey list.entry.bytes.now site months p }
    ensures demand3 { (p : Sampled) → result ≡ Ok p → Tells within over (verdict_word p.judged.verdict) (terms_of list.entry.bytes.now site) p.pair.sulphur p.pair.nitrogen }
{
    match year_pair(months) {
        Ok(pair) => judge_pair(site, list, pair),
        Err(refusal) => refuse_checked(site, list, refusal),
    }
}
