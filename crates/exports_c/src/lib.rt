// The calls of `exports` for C, a static library: `docs/forest.h` describes them for their users.
// A crate is a library or a static library, and `exports` is the one that Rattle can call: so each call stands here once more.
#![tactic(auto)]

ghost use Rattle.std.specs.Prelude.{◌≡◌, ◌<◌, take, length, get_or};
ghost use Rattle.output.specs.Output.{held};
ghost use Rattle.loads.specs.SiteTerms.{terms_of};
ghost use Rattle.loads.specs.Search.{level_numbers, FewAt};
ghost use Rattle.judgement.specs.Balance.{MarkSays, Tells};
ghost use Rattle.record.specs.Outer.{read_record};
ghost use Rattle.text.specs.TextAnswer.{text_answer};
ghost use Rattle.listing.specs.FileText.{file_answer, file_held};
ghost use Rattle.listing.specs.Reports.{listing_of};
ghost use Rattle.listing.specs.PrintedDemand3.{LinesSay};
ghost use Rattle.pages.specs.Pages.{pages_of};
ghost use Rattle.pages.specs.PagesDemand3.{PagesSay};
ghost use Rattle.exports.specs.Codes.{code_base, written_code, Decodes, rewrite_answer, rewrite_held};
ghost use Rattle.convert.specs.Converted.{file_of};
ghost use Rattle.exports.specs.Target.{converted_to, MovedTo};
ghost use Rattle.exports.specs.Lent.{lent, lent_contents, lent_report, LentSays};
ghost use Rattle.exports.specs.Numbers.{numbers_written, numbers_held};
ghost use Rattle.exports.specs.Layout.{site_in, given, site_load_numbers, judgement_numbers};
ghost use Rattle.exports.specs.Samples.{sample_in, sample_written, sample_held, NumbersByKey};

#[unsafe(no_mangle)]
pub extern "C" fn forest_list(file: &[u8], list: &[u8], out: &mut [u8]) -> u64
    ensures answer { result ≡ written_code (file_answer (listing_of list.now) (lent_contents list.now file.now) out.old) }
    ensures buffer { out.new ≡ file_held (listing_of list.now) (lent_contents list.now file.now) out.old }
    ensures decoded { Decodes (file_answer (listing_of list.now) (lent_contents list.now file.now) out.old) result }
    ensures demand3 { result < code_base → LentSays LinesSay list.now file.now (take result out.new) }
{
    exports::forest_list(file, list, out)
}

#[unsafe(no_mangle)]
pub extern "C" fn forest_report(file: &[u8], list: &[u8], out: &mut [u8]) -> u64
    ensures answer { result ≡ written_code (text_answer (lent_report list.now file.now) out.old) }
    ensures buffer { out.new ≡ held (lent_report list.now file.now) out.old }
    ensures decoded { Decodes (text_answer (lent_report list.now file.now) out.old) result }
    ensures demand3 { result < code_base → LentSays LinesSay list.now file.now (take result out.new) }
{
    exports::forest_report(file, list, out)
}

#[unsafe(no_mangle)]
pub extern "C" fn forest_pages(file: &[u8], list: &[u8], out: &mut [u8]) -> u64
    ensures answer { result ≡ written_code (file_answer (pages_of list.now) (lent_contents list.now file.now) out.old) }
    ensures buffer { out.new ≡ file_held (pages_of list.now) (lent_contents list.now file.now) out.old }
    ensures decoded { Decodes (file_answer (pages_of list.now) (lent_contents list.now file.now) out.old) result }
    ensures demand3 { result < code_base → LentSays PagesSay list.now file.now (take result out.new) }
{
    exports::forest_pages(file, list, out)
}

#[unsafe(no_mangle)]
pub extern "C" fn forest_convert(file: &[u8], list: &[u8], target: u8, out: &mut [u8]) -> u64
    ensures answer { result ≡ written_code (file_answer file_of (converted_to target list.now file.now) out.old) }
    ensures buffer { out.new ≡ file_held file_of (converted_to target list.now file.now) out.old }
    ensures decoded { Decodes (file_answer file_of (converted_to target list.now file.now) out.old) result }
    ensures same { result < code_base → MovedTo target list.now file.now (take result out.new) }
{
    exports::forest_convert(file, list, target, out)
}

#[unsafe(no_mangle)]
pub extern "C" fn forest_rewrite(input: &[u8], list: &[u8], out: &mut [u8]) -> u64
    ensures answer { result ≡ written_code (rewrite_answer (lent list.now (read_record list.now input.now)) input.now out.old) }
    ensures buffer { out.new ≡ rewrite_held (lent list.now (read_record list.now input.now)) input.now out.old }
    ensures decoded { Decodes (rewrite_answer (lent list.now (read_record list.now input.now)) input.now out.old) result }
{
    exports::forest_rewrite(input, list, out)
}

#[unsafe(no_mangle)]
pub extern "C" fn forest_check(site: &[u8], list: &[u8]) -> u64
    ensures answer { result ≡ written_code (given list.now site.now 0) }
    ensures decoded { Decodes (given list.now site.now 0) result }
{
    exports::forest_check(site, list)
}

#[unsafe(no_mangle)]
pub extern "C" fn forest_loads(site: &[u8], list: &[u8], out: &mut [u64]) -> u64
    ensures answer { result ≡ written_code (numbers_written (given list.now site.now (site_load_numbers list.now (site_in site.now))) (length out.old)) }
    ensures buffer { out.new ≡ numbers_held (given list.now site.now (site_load_numbers list.now (site_in site.now))) out.old }
    ensures decoded { Decodes (numbers_written (given list.now site.now (site_load_numbers list.now (site_in site.now))) (length out.old)) result }
{
    exports::forest_loads(site, list, out)
}

#[unsafe(no_mangle)]
pub extern "C" fn forest_level(site: &[u8], list: &[u8], out: &mut [u64]) -> u64
    ensures answer { result ≡ written_code (numbers_written (given list.now site.now (level_numbers (terms_of list.now (site_in site.now)))) (length out.old)) }
    ensures buffer { out.new ≡ numbers_held (given list.now site.now (level_numbers (terms_of list.now (site_in site.now)))) out.old }
    ensures decoded { Decodes (numbers_written (given list.now site.now (level_numbers (terms_of list.now (site_in site.now)))) (length out.old)) result }
    ensures count { result ≡ 2 → FewAt (terms_of list.now (site_in site.now)) (get_or out.new 1 0) }
{
    exports::forest_level(site, list, out)
}

#[unsafe(no_mangle)]
pub extern "C" fn forest_judge(site: &[u8], list: &[u8], out: &mut [u64]) -> u64
    ensures answer { result ≡ written_code (numbers_written (given list.now site.now (judgement_numbers list.now (site_in site.now))) (length out.old)) }
    ensures buffer { out.new ≡ numbers_held (given list.now site.now (judgement_numbers list.now (site_in site.now))) out.old }
    ensures decoded { Decodes (numbers_written (given list.now site.now (judgement_numbers list.now (site_in site.now))) (length out.old)) result }
    ensures demand3 { result ≡ 8 → MarkSays list.now (get_or out.new 7 0) (site_in site.now) }
{
    exports::forest_judge(site, list, out)
}

#[unsafe(no_mangle)]
pub extern "C" fn forest_sample(site: &[u8], list: &[u8], months: &[u8], out: &mut [u64]) -> u64
    ensures answer { result ≡ written_code (sample_written (sample_in site.now list.now months.now) (length out.old)) }
    ensures buffer { out.new ≡ sample_held (sample_in site.now list.now months.now) out.old }
    ensures decoded { Decodes (sample_written (sample_in site.now list.now months.now) (length out.old)) result }
    ensures by_key { result ≡ 10 → NumbersByKey site.now list.now months.now out.new }
    ensures demand3 { result ≡ 10 → Tells 0 1 (get_or out.new 9 0) (terms_of list.now (site_in site.now)) (get_or out.new 0 0) (get_or out.new 1 0) }
{
    exports::forest_sample(site, list, months, out)
}
