// The listing, the report and the pages of a file.
ghost use Rattle.std.specs.Prelude.{◌≡◌, ◌<◌, take, Ok};
ghost use Rattle.site.specs.SpeciesList.{list_rule};
ghost use Rattle.output.specs.Output.{held};
ghost use Rattle.text.specs.TextAnswer.{text_answer};
ghost use Rattle.listing.specs.FileText.{file_answer, file_held};
ghost use Rattle.listing.specs.Reports.{listing_of};
ghost use Rattle.listing.specs.PrintedDemand3.{LinesSay, WrittenSays, WrittenDemand3};
ghost use Rattle.pages.specs.Pages.{pages_of};
ghost use Rattle.pages.specs.PagesDemand3.{PagesSay};
ghost use Rattle.exports.specs.Codes.{code_base, written_code, Decodes, Small};
ghost use Rattle.exports.specs.Lent.{lent_contents, lent_report, LentSays};

use crate::codes::written_code;
use listing::report;
use pages::list_pages;
use site::{Refusal, SpeciesList};
use text::put_refusal;

fn list_lent(file: &[u8], list: &[u8], out: &mut [u8]) -> Result<usize, Refusal>
    ensures answer { result ≡ file_answer (listing_of list.now) (lent_contents list.now file.now) out.old }
    ensures buffer { out.new ≡ file_held (listing_of list.now) (lent_contents list.now file.now) out.old }
    ensures small { Small result }
    ensures demand3 { list_rule list.now ≡ Ok tt → WrittenDemand3 list.now file.now out.new result }
{
    listing::list(file, SpeciesList::checked(list)?, out)
}

#[unsafe(no_mangle)]
pub extern "C" fn forest_list(file: &[u8], list: &[u8], out: &mut [u8]) -> u64
    ensures answer { result ≡ written_code (file_answer (listing_of list.now) (lent_contents list.now file.now) out.old) }
    ensures buffer { out.new ≡ file_held (listing_of list.now) (lent_contents list.now file.now) out.old }
    ensures decoded { Decodes (file_answer (listing_of list.now) (lent_contents list.now file.now) out.old) result }
    ensures demand3 { result < code_base → LentSays LinesSay list.now file.now (take result out.new) }
{
    written_code(list_lent(file, list, out))
}

fn report_lent(file: &[u8], list: &[u8], out: &mut [u8]) -> Result<usize, Refusal>
    ensures answer { result ≡ text_answer (lent_report list.now file.now) out.old }
    ensures buffer { out.new ≡ held (lent_report list.now file.now) out.old }
    ensures small { Small result }
    ensures demand3 { list_rule list.now ≡ Ok tt → WrittenDemand3 list.now file.now out.new result }
{
    match SpeciesList::checked(list) {
        Ok(list) => report(file, list, out),
        Err(refusal) => put_refusal(out, refusal),
    }
}

#[unsafe(no_mangle)]
pub extern "C" fn forest_report(file: &[u8], list: &[u8], out: &mut [u8]) -> u64
    ensures answer { result ≡ written_code (text_answer (lent_report list.now file.now) out.old) }
    ensures buffer { out.new ≡ held (lent_report list.now file.now) out.old }
    ensures decoded { Decodes (text_answer (lent_report list.now file.now) out.old) result }
    ensures demand3 { result < code_base → LentSays LinesSay list.now file.now (take result out.new) }
{
    written_code(report_lent(file, list, out))
}

fn pages_lent(file: &[u8], list: &[u8], out: &mut [u8]) -> Result<usize, Refusal>
    ensures answer { result ≡ file_answer (pages_of list.now) (lent_contents list.now file.now) out.old }
    ensures buffer { out.new ≡ file_held (pages_of list.now) (lent_contents list.now file.now) out.old }
    ensures small { Small result }
    ensures demand3 { list_rule list.now ≡ Ok tt → WrittenSays PagesSay list.now file.now out.new result }
{
    list_pages(file, SpeciesList::checked(list)?, out)
}

#[unsafe(no_mangle)]
pub extern "C" fn forest_pages(file: &[u8], list: &[u8], out: &mut [u8]) -> u64
    ensures answer { result ≡ written_code (file_answer (pages_of list.now) (lent_contents list.now file.now) out.old) }
    ensures buffer { out.new ≡ file_held (pages_of list.now) (lent_contents list.now file.now) out.old }
    ensures decoded { Decodes (file_answer (pages_of list.now) (lent_contents list.now file.now) out.old) result }
    ensures demand3 { result < code_base → LentSays PagesSay list.now file.now (take result out.new) }
{
    written_code(pages_lent(file, list, out))
}
