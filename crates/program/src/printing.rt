// What is printed.
ghost use Rattle.std.specs.Prelude.{◌≡◌, List, [], ◌++◌, ℕ, ◌≤◌, length, take, drop};
ghost use Rattle.listing.specs.Reports.{report_of};
ghost use Rattle.listing.specs.PrintedDemand3.{Demand3};
ghost use Rattle.program.specs.declared.ReadState.TheVariants.{Failed};
ghost use Rattle.program.specs.Printing.{shown_length, output_of, ReadFrom};
ghost use Rattle.text.specs.TextLengths.{most_text};
ghost use Rattle.output.specs.Output.{held};

use crate::ReadState;
use listing::report;
use site::SpeciesList;

// The report of a file, with the number of bytes to print: none where the buffer is too short.
#[tactic(auto, unfolding(site::specs::Refusal::unless, output::specs::Output::held_after, output::specs::Output::output_count))]
fn shown(file: &[u8], out: &mut [u8]) -> usize
    ensures inside { (result ≤ length out.new) × (result ≡ length (take result out.new)) }
    ensures answer { result ≡ shown_length (report_of [] file.now) out.old }
    ensures buffer { out.new ≡ held (report_of [] file.now) out.old }
    ensures enough { most_text ≤ length out.old → take result out.new ≡ report_of [] file.now }
{
    report(file, SpeciesList::empty(), out).unwrap_or(0)
}

// The report of what was read, where the reading has ended, and nothing otherwise; gives how many bytes to print. The file's buffer
// has room for 500 records of the greatest length and a byte more, the output's for every listing. `inside` and `failed` follow from
// `answer` and `buffer`, and are there for callers and readers.
#[tactic(auto, using(output::proofs::OutputLaws::room_enough), unfolding(output::specs::Output::held_after, crate::specs::Printing::output_of))]
pub fn to_print(file: &[u8; 129001], reading: ReadState, out: &mut [u8; 81551]) -> usize
    ensures inside { (result ≤ length out.new) × (result ≡ length (take result out.new)) }
    ensures answer { result ≡ length (output_of reading file.now) }
    ensures buffer { out.new ≡ output_of reading file.now ++ drop (length (output_of reading file.now)) out.old }
    ensures failed { reading ≡ Failed → (result ≡ 0) × (out.new ≡ out.old) }
    ensures whole { (f : List ℕ) → ReadFrom f file.now reading → take result out.new ≡ report_of [] f }
    ensures demand3 { (f : List ℕ) → ReadFrom f file.now reading → Demand3 [] f (take result out.new) }
{
    match reading {
        ReadState::Ended(n) => shown(&file[..n.min(file.len())], out),
        ReadState::More(_) => 0,
        ReadState::Failed => 0,
    }
}
