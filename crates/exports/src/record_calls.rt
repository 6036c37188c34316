// A single record, read and written again.
ghost use Rattle.std.specs.Prelude.{◌≡◌};
ghost use Rattle.record.specs.Outer.{read_record};
ghost use Rattle.exports.specs.Codes.{written_code, Decodes, Small, rewrite_answer, rewrite_held};
ghost use Rattle.exports.specs.Lent.{lent};

use crate::codes::written_code;
use record::{read_record, write_record};
use site::{Refusal, SpeciesList};

fn rewrite(input: &[u8], list: &[u8], out: &mut [u8]) -> Result<usize, Refusal>
    ensures answer { result ≡ rewrite_answer (lent list.now (read_record list.now input.now)) input.now out.old }
    ensures buffer { out.new ≡ rewrite_held (lent list.now (read_record list.now input.now)) input.now out.old }
    ensures small { Small result }
{
    let list = SpeciesList::checked(list)?;
    write_record(read_record(input, list)?, list, out)
}

#[unsafe(no_mangle)]
pub extern "C" fn forest_rewrite(input: &[u8], list: &[u8], out: &mut [u8]) -> u64
    ensures answer { result ≡ written_code (rewrite_answer (lent list.now (read_record list.now input.now)) input.now out.old) }
    ensures buffer { out.new ≡ rewrite_held (lent list.now (read_record list.now input.now)) input.now out.old }
    ensures decoded { Decodes (rewrite_answer (lent list.now (read_record list.now input.now)) input.now out.old) result }
{
    written_code(rewrite(input, list, out))
}
