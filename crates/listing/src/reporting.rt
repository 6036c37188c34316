// What the program prints for a file.
ghost use Rattle.std.specs.Prelude.{◌≡◌};
ghost use Rattle.output.specs.Output.{written_numbers, held_numbers, held};
ghost use Rattle.text.specs.TextAnswer.{text_answer, RoomEnough};
ghost use Rattle.listing.specs.Reports.{report_of};
ghost use Rattle.listing.specs.PrintedDemand3.{WrittenDemand3};

use crate::walking::walk_file;
use site::{Refusal, SpeciesList};
use text::{put_listing, put_refusal};

// The listing, or the line of the refusal.
pub fn report(file: &[u8], list: SpeciesList<'_>, out: &mut [u8]) -> Result<usize, Refusal>
    ensures answer { result ≡ text_answer (report_of list.entry.bytes.now file.now) out.old }
    ensures buffer { out.new ≡ held (report_of list.entry.bytes.now file.now) out.old }
    ensures numbers { written_numbers result ≡ held_numbers (report_of list.entry.bytes.now file.now) out.old }
    ensures enough { RoomEnough (report_of list.entry.bytes.now file.now) out.old result }
    ensures demand3 { WrittenDemand3 list.entry.bytes.now file.now out.new result }
{
    match walk_file(file, list) {
        Ok(rows) => put_listing(out, &rows),
        Err(refusal) => put_refusal(out, refusal),
    }
}
