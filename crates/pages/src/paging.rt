// The pages of a file into a lent buffer.
ghost use Rattle.std.specs.Prelude.{◌≡◌, ◌≤◌, length};
ghost use Rattle.site.specs.Ranges.{most_records};
ghost use Rattle.output.specs.Output.{written_numbers, held};
ghost use Rattle.text.specs.TextAnswer.{text_answer};
ghost use Rattle.record.specs.File.{contents};
ghost use Rattle.listing.specs.FileText.{file_answer, file_numbers, file_held, FileRoom};
ghost use Rattle.listing.specs.PrintedDemand3.{WrittenSays};
ghost use Rattle.pages.specs.Pages.{pages, pages_of, most_pages};
ghost use Rattle.pages.specs.PagesDemand3.{PagesSay};

use columns::{put_header, put_row};
use listing::walk_file;
use site::{Refusal, Rule, SpeciesList};
use text::Row;

// Writes the pages of rows: under the header of each stand 59, on the last what is left. A buffer that is too short for all of them stays as it is.
fn put_pages(out: &mut [u8], rows: &[Row]) -> Result<usize, Refusal>
    requires { length rows.now ≤ most_records }
    ensures { (result ≡ text_answer (pages rows.now) out.old) × (out.new ≡ held (pages rows.now) out.old) }
{
    let need = 65 * (rows.len() + rows.len().div_ceil(59));
    if out.len() < need {
        return Err(Rule::BufferShort.into());
    }
    let mut o = 0;
    for page in rows.chunks(59) {
        o = put_header(out, o);
        for row in page {
            o = put_row(out, o, *row);
        }
    }
    Ok(o)
}

// Nothing is written before the last record is checked and all pages are known to fit.
pub fn list_pages(file: &[u8], list: SpeciesList<'_>, out: &mut [u8]) -> Result<usize, Refusal>
    ensures answer { result ≡ file_answer (pages_of list.entry.bytes.now) (contents list.entry.bytes.now file.now) out.old }
    ensures buffer { out.new ≡ file_held (pages_of list.entry.bytes.now) (contents list.entry.bytes.now file.now) out.old }
    ensures numbers { written_numbers result ≡ file_numbers (pages_of list.entry.bytes.now) (contents list.entry.bytes.now file.now) out.old }
    ensures enough { FileRoom most_pages (pages_of list.entry.bytes.now) (contents list.entry.bytes.now file.now) out.old result }
    ensures demand3 { WrittenSays PagesSay list.entry.bytes.now file.now out.new result }
{
    let rows = walk_file(file, list)?;
    put_pages(out, &rows)
}
