// The records of a file moved to one kind, into a lent buffer.
ghost use Rattle.std.specs.Prelude.{All, ◌≡◌, ◌≤◌, MatchResult, Ok, Err, IfOk, length, take, map, flat_map};
ghost use Rattle.site.specs.Ranges.{most_records};
ghost use Rattle.output.specs.Output.{written_numbers};
ghost use Rattle.output.specs.Writing.{Wrote};
ghost use Rattle.listing.specs.FileText.{file_answer, file_numbers, file_held, FileRoom};
ghost use Rattle.convert.specs.Moved.{moved, Older};
ghost use Rattle.convert.specs.Converted.{all_moved, moved_record, movable, converted, file_of, most_converted};
ghost use Rattle.convert.specs.SameRecords.{SameRecords};

use crate::Target;
use crate::moving::{check_convertible, moved};
use record::{put_record, read_sites, record_len};
use site::{RecordKind, Refusal, Rule, Site, SpeciesList};

// How many bytes the sites' records take in the kind, or rule 17 at the first that it cannot hold.
fn moved_len(target: Target, sites: &[Site]) -> Result<usize, Refusal>
    requires few { length sites.now ≤ most_records }
    requires older { All Older sites.now }
    ensures { MatchResult result (λ n. (all_moved target 0 sites.now ≡ Ok (map (moved target) sites.now)) × (n ≡ length (flat_map (moved_record target) sites.now))) (λ refusal. all_moved target 0 sites.now ≡ Err refusal) }
{
    let mut at = 0;
    let mut len = 0;
    for site in sites {
        let n = record_len(*site);
        check_convertible(target, *site, at, n)?;
        at += n;
        len += record_len(moved(target, *site));
    }
    Ok(len)
}

fn put_moved(out: &mut [u8], target: Target, sites: &[Site]) -> usize
    requires { length (flat_map (moved_record target) sites.now) ≤ length out.old }
    ensures { Wrote out.old 0 (flat_map (moved_record target) sites.now) out.new result }
{
    let mut end = 0;
    for site in sites {
        end = put_record(out, end, moved(target, *site));
    }
    end
}

// Nothing is written before the whole file is known to convert and to fit.
pub fn convert(
    file: &[u8],
    list: SpeciesList<'_>,
    target: Target,
    out: &mut [u8],
) -> Result<usize, Refusal>
    ensures answer { result ≡ file_answer file_of (converted target (movable list.entry.bytes.now file.now)) out.old }
    ensures buffer { out.new ≡ file_held file_of (converted target (movable list.entry.bytes.now file.now)) out.old }
    ensures numbers { written_numbers result ≡ file_numbers file_of (converted target (movable list.entry.bytes.now file.now)) out.old }
    ensures enough { FileRoom most_converted file_of (converted target (movable list.entry.bytes.now file.now)) out.old result }
    ensures same { IfOk result (λ n. SameRecords list.entry.bytes.now target file.now (take n out.new)) }
{
    let sites = read_sites(RecordKind::Tag54, file, list)?;
    let len = moved_len(target, &sites)?;
    if out.len() < len {
        return Err(Rule::BufferShort.into());
    }
    Ok(put_moved(out, target, &sites))
}
