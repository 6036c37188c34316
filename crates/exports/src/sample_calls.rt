// The rain sampler's months at a site value.
ghost use Rattle.std.specs.Prelude.{◌≡◌, length, get_or};
ghost use Rattle.loads.specs.SiteTerms.{terms_of};
ghost use Rattle.judgement.specs.Balance.{Tells};
ghost use Rattle.exports.specs.Codes.{written_code, Decodes};
ghost use Rattle.exports.specs.Layout.{site_in};
ghost use Rattle.exports.specs.Samples.{sample_in, sampled, sample_written, sample_held, NumbersByKey};

use crate::codes::written_code;
use crate::putting::put_numbers;
use crate::value_calls::{judged_numbers, site_value};
use readings::months_in;
use sampler::{Sampled, judge_months, refuse_checked};
use site::{Refusal, Rule, SpeciesList};

// The answer for the bytes of a site value, of a list and of the months.
#[tactic(auto, unfolding(site::specs::Refusal::and_then, site::specs::Refusal::unless, crate::specs::Lent::lent, crate::specs::Layout::value_check, crate::specs::Samples::sample_in, crate::specs::Samples::months_length, sampler::specs::SampleAnswers::sample_answer))]
fn sample_in(site: &[u8], list: &[u8], months: &[u8]) -> Result<Sampled, Refusal>
    ensures { result ≡ sample_in site.now list.now months.now }
{
    let list = SpeciesList::checked(list)?;
    let site = site_value(site)?;
    if months.len() != 204 {
        return refuse_checked(site, list, Rule::BadLength.into());
    }
    judge_months(site, list, months_in(months))
}

// S and N, then the numbers of their judgement.
#[tactic(auto, unfolding(crate::specs::Samples::sampled, crate::specs::Samples::sampled_numbers))]
fn sampled_of(site: &[u8], list: &[u8], months: &[u8]) -> Result<[u64; 10], Refusal>
    ensures { result ≡ sampled (sample_in site.now list.now months.now) }
{
    let Sampled { pair, judged } = sample_in(site, list, months)?;
    let [a, b, c, d, e, f, g, h] = judged_numbers(judged);
    Ok([
        u64::from(pair.sulphur),
        u64::from(pair.nitrogen),
        a,
        b,
        c,
        d,
        e,
        f,
        g,
        h,
    ])
}

#[unsafe(no_mangle)]
pub extern "C" fn forest_sample(site: &[u8], list: &[u8], months: &[u8], out: &mut [u64]) -> u64
    ensures answer { result ≡ written_code (sample_written (sample_in site.now list.now months.now) (length out.old)) }
    ensures buffer { out.new ≡ sample_held (sample_in site.now list.now months.now) out.old }
    ensures decoded { Decodes (sample_written (sample_in site.now list.now months.now) (length out.old)) result }
    ensures by_key { result ≡ 10 → NumbersByKey site.now list.now months.now out.new }
    ensures demand3 { result ≡ 10 → Tells 0 1 (get_or out.new 9 0) (terms_of list.now (site_in site.now)) (get_or out.new 0 0) (get_or out.new 1 0) }
{
    written_code(put_numbers(sampled_of(site, list, months), out))
}
