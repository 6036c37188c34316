// The program as a whole: it reads, and writes what is to be printed.
ghost use Rattle.std.specs.Prelude.{[], ◌≡◌, ◌≢◌, IfOk, IfSome};
ghost use Rattle.std.specs.Io.KnownBytes.{Keeps, Appends};
ghost use Rattle.listing.specs.Reports.{report_of};
ghost use Rattle.program.specs.declared.ReadState.TheVariants.{Failed};
ghost use Rattle.program.specs.Reads.{ReadAll};

use crate::Input;
use crate::printing::to_print;
use crate::reader::read_all;
use std::io::{self, Read, Write};

// Reads a file to its end and writes its report, or nothing after a failed read. `whole` and `failed` are for readers and writers of which it is known
// what they have left and what they hold. The buffers are fixed memory: nothing is allocated.
pub fn run<R: Read, W: Write>(reader: &mut R, writer: &mut W) -> io::Result<Input>
    ensures read { IfOk result (λ i. ReadAll 129001 i) }
    ensures whole { IfOk result (λ i. IfSome (R.remaining reader.old) (λ f. i.reading ≢ Failed → Appends (W.contents writer.old) (W.contents writer.new) (report_of [] f))) }
    ensures failed { IfOk result (λ i. i.reading ≡ Failed → Keeps (W.contents writer.old) (W.contents writer.new)) }
{
    let mut file = [0u8; 129001];
    let input = read_all(reader, &mut file);
    let mut out = [0u8; 81551];
    let k = to_print(&file, input.reading, &mut out);
    writer.write_all(&out[..k])?;
    Ok(input)
}
