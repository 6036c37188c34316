// Check, loads, hydrogen level and judgement of a site value.
ghost use Rattle.std.specs.Prelude.{◌≡◌, Ok, length, get_or};
ghost use Rattle.site.specs.Refusal.{and_then};
ghost use Rattle.loads.specs.SiteTerms.{terms_of};
ghost use Rattle.loads.specs.Search.{level_numbers, FewAt};
ghost use Rattle.judgement.specs.Balance.{MarkSays};
ghost use Rattle.exports.specs.Codes.{written_code, Decodes};
ghost use Rattle.exports.specs.Layout.{site_in, value_length, given, site_load_numbers, judged_numbers, judgement_numbers};
ghost use Rattle.exports.specs.Numbers.{numbers_written, numbers_held};

use crate::codes::written_code;
use crate::layout::site_as;
use crate::putting::put_numbers;
use judgement::{Judged, Verdict, judge};
use level::level_at;
use loads::{check_site, critical_loads};
use site::{RecordKind, Refusal, Rule, Site, SpeciesList};

// The site in the bytes of a site value, whose number says its kind.
#[tactic(auto, unfolding(site::specs::Refusal::and_then, crate::specs::Layout::value_length, crate::specs::Layout::kind_in))]
pub fn site_value(bytes: &[u8]) -> Result<Site, Rule>
    ensures { result ≡ and_then (value_length bytes.now) (Ok (site_in bytes.now)) }
{
    let kind = match bytes.len() {
        50 => RecordKind::Tag52,
        51 => RecordKind::Tag53,
        55 => RecordKind::Tag54,
        57 => RecordKind::Tag55,
        _ => return Err(Rule::BadLength),
    };
    Ok(site_as(kind, bytes))
}

#[tactic(auto, unfolding(site::specs::Refusal::and_then, site::specs::Refusal::unless, crate::specs::Lent::lent, crate::specs::Layout::given, crate::specs::Layout::value_check))]
fn check_value(bytes: &[u8], list: &[u8]) -> Result<usize, Refusal>
    ensures { result ≡ given list.now bytes.now 0 }
{
    let list = SpeciesList::checked(list)?;
    check_site(site_value(bytes)?, list)?;
    Ok(0)
}

#[unsafe(no_mangle)]
pub extern "C" fn forest_check(site: &[u8], list: &[u8]) -> u64
    ensures answer { result ≡ written_code (given list.now site.now 0) }
    ensures decoded { Decodes (given list.now site.now 0) result }
{
    written_code(check_value(site, list))
}

#[tactic(auto, unfolding(site::specs::Refusal::and_then, site::specs::Refusal::unless, crate::specs::Lent::lent, crate::specs::Layout::given, crate::specs::Layout::value_check, crate::specs::Layout::site_load_numbers, loads::specs::CriticalLoads::loads_answer, loads::specs::CriticalLoads::load_numbers))]
fn loads_of(bytes: &[u8], list: &[u8]) -> Result<[u64; 4], Refusal>
    ensures { result ≡ given list.now bytes.now (site_load_numbers list.now (site_in bytes.now)) }
{
    let list = SpeciesList::checked(list)?;
    let l = critical_loads(site_value(bytes)?, list)?;
    Ok([l.max_s, l.min_n, l.max_n, l.nut_n])
}

#[unsafe(no_mangle)]
pub extern "C" fn forest_loads(site: &[u8], list: &[u8], out: &mut [u64]) -> u64
    ensures answer { result ≡ written_code (numbers_written (given list.now site.now (site_load_numbers list.now (site_in site.now))) (length out.old)) }
    ensures buffer { out.new ≡ numbers_held (given list.now site.now (site_load_numbers list.now (site_in site.now))) out.old }
    ensures decoded { Decodes (numbers_written (given list.now site.now (site_load_numbers list.now (site_in site.now))) (length out.old)) result }
{
    written_code(put_numbers(loads_of(site, list), out))
}

// The level, and how many levels were compared.
#[tactic(auto, unfolding(site::specs::Refusal::and_then, site::specs::Refusal::unless, crate::specs::Lent::lent, crate::specs::Layout::given, crate::specs::Layout::value_check, level::specs::SiteLevel::site_level, loads::specs::Search::level_numbers, loads::specs::Search::searched_at, loads::specs::Search::searched_of, loads::specs::Search::levels_compared, loads::specs::Hydrogen::greatest_level))]
fn level_of(bytes: &[u8], list: &[u8]) -> Result<[u64; 2], Refusal>
    ensures { result ≡ given list.now bytes.now (level_numbers (terms_of list.now (site_in bytes.now))) }
{
    let list = SpeciesList::checked(list)?;
    let found = level_at(site_value(bytes)?, list)?;
    Ok([found.level, found.compared])
}

#[unsafe(no_mangle)]
pub extern "C" fn forest_level(site: &[u8], list: &[u8], out: &mut [u64]) -> u64
    ensures answer { result ≡ written_code (numbers_written (given list.now site.now (level_numbers (terms_of list.now (site_in site.now)))) (length out.old)) }
    ensures buffer { out.new ≡ numbers_held (given list.now site.now (level_numbers (terms_of list.now (site_in site.now)))) out.old }
    ensures decoded { Decodes (numbers_written (given list.now site.now (level_numbers (terms_of list.now (site_in site.now)))) (length out.old)) result }
    ensures count { result ≡ 2 → FewAt (terms_of list.now (site_in site.now)) (get_or out.new 1 0) }
{
    written_code(put_numbers(level_of(site, list), out))
}

// The loads, then region, both exceedances and mark.
#[tactic(auto, unfolding(crate::specs::Layout::judged_numbers, crate::specs::Layout::verdict_marked, crate::specs::Layout::mark_number, judgement::specs::Verdicts::verdict_numbers, loads::specs::CriticalLoads::load_numbers))]
pub fn judged_numbers(judged: Judged) -> [u64; 8]
    ensures { result ≡ judged_numbers judged }
{
    let l = judged.loads;
    match judged.verdict {
        Verdict::Within => [l.max_s, l.min_n, l.max_n, l.nut_n, 0, 0, 0, 0],
        Verdict::Over {
            region,
            acid,
            nutrient,
        } => [
            l.max_s,
            l.min_n,
            l.max_n,
            l.nut_n,
            u64::from(region),
            acid,
            nutrient,
            1,
        ],
    }
}

#[tactic(auto, unfolding(site::specs::Refusal::and_then, site::specs::Refusal::unless, crate::specs::Lent::lent, crate::specs::Layout::given, crate::specs::Layout::value_check, crate::specs::Layout::judgement_numbers, crate::specs::Layout::judged_numbers, crate::specs::Layout::site_load_numbers, judgement::specs::Answers::judgement_answer, judgement::specs::Answers::judged_of))]
fn judgement_of(bytes: &[u8], list: &[u8]) -> Result<[u64; 8], Refusal>
    ensures { result ≡ given list.now bytes.now (judgement_numbers list.now (site_in bytes.now)) }
{
    let list = SpeciesList::checked(list)?;
    let judged = judge(site_value(bytes)?, list)?;
    Ok(judged_numbers(judged))
}

#[unsafe(no_mangle)]
pub extern "C" fn forest_judge(site: &[u8], list: &[u8], out: &mut [u64]) -> u64
    ensures answer { result ≡ written_code (numbers_written (given list.now site.now (judgement_numbers list.now (site_in site.now))) (length out.old)) }
    ensures buffer { out.new ≡ numbers_held (given list.now site.now (judgement_numbers list.now (site_in site.now))) out.old }
    ensures decoded { Decodes (numbers_written (given list.now site.now (judgement_numbers list.now (site_in site.now))) (length out.old)) result }
    ensures demand3 { result ≡ 8 → MarkSays list.now (get_or out.new 7 0) (site_in site.now) }
{
    written_code(put_numbers(judgement_of(site, list), out))
}
