// The listing of a file into a lent buffer.
ghost use Rattle.std.specs.Prelude.{◌≡◌};
ghost use Rattle.output.specs.Output.{written_numbers};
ghost use Rattle.record.specs.File.{contents};
ghost use Rattle.text.specs.TextLengths.{most_text};
ghost use Rattle.listing.specs.FileText.{file_answer, file_numbers, file_held, FileRoom};
ghost use Rattle.listing.specs.Reports.{listing_of};
ghost use Rattle.listing.specs.PrintedDemand3.{WrittenDemand3};

use crate::walking::walk_file;
use site::{Refusal, SpeciesList};
use text::put_listing;

// Nothing is written before the last record is checked and the length is known to fit.
pub fn list(file: &[u8], species: SpeciesList<'_>, out: &mut [u8]) -> Result<usize, Refusal>
    ensures answer { result ≡ file_answer (listing_of species.entry.bytes.now) (contents species.entry.bytes.now file.now) out.old }
    ensures buffer { out.new ≡ file_held (listing_of species.entry.bytes.now) (contents species.entry.bytes.now file.now) out.old }
    ensures numbers { written_numbers result ≡ file_numbers (listing_of species.entry.bytes.now) (contents species.entry.bytes.now file.now) out.old }
    ensures enough { FileRoom most_text (listing_of species.entry.bytes.now) (contents species.entry.bytes.now file.now) out.old result }
    ensures demand3 { WrittenDemand3 species.entry.bytes.now file.now out.new result }
{
    let rows = walk_file(file, species)?;
    put_listing(out, &rows)
}
