// The pair S, N of twelve months.
ghost use Rattle.std.specs.Prelude.{◌≡◌};
ghost use Rattle.sampler.specs.YearPair.{divided_pair, year_of};

use crate::months::{Deposition, month_deposition};
use crate::{Month, Pair};
use site::{Refusal, Rule};

// The sums of the year in µg per square metre, divided, up.
#[tactic(auto, using(loads::proofs::Numbers::up_is))]
fn divided(sum: Deposition) -> Result<Pair, Refusal>
    ensures { result ≡ divided_pair sum.sulphur sum.nitrogen }
{
    let too_large = Refusal {
        rule: Rule::PairTooLarge,
        at: 12,
    };
    let sulphur = u16::try_from(sum.sulphur.div_ceil(1600)).map_err(|_| too_large)?;
    let nitrogen = u16::try_from(sum.nitrogen.div_ceil(1400)).map_err(|_| too_large)?;
    Ok(Pair { sulphur, nitrogen })
}

#[tactic(auto, using(crate::proofs::YearLaws::onward_start, crate::proofs::YearLaws::onward_stop, crate::proofs::YearLaws::onward_step), unfolding(site::specs::Refusal::and_then))]
pub fn year_pair(months: [Month; 12]) -> Result<Pair, Refusal>
    ensures { result ≡ year_of months }
{
    let mut sum = Deposition {
        sulphur: 0,
        nitrogen: 0,
    };
    for (i, m) in months.iter().enumerate() {
        let d = month_deposition(*m).map_err(|rule| Refusal { rule, at: i })?;
        sum.sulphur += d.sulphur;
        sum.nitrogen += d.nitrogen;
    }
    divided(sum)
}
