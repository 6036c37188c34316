// The line of a refusal.
ghost use Rattle.std.specs.Prelude.{◌≡◌};
ghost use Rattle.output.specs.Output.{written_numbers, held_numbers, held};
ghost use Rattle.text.specs.TextAnswer.{text_answer, RoomEnough};
ghost use Rattle.text.specs.RefusalLine.{refusal};

use crate::decimal::{put_decimal, width};
use output::put_bytes;
use site::{Refusal, Rule};

// Writes the line `refused N at M` at the start of out. A buffer that is too short stays as it is.
pub fn put_refusal(out: &mut [u8], refused: Refusal) -> Result<usize, Refusal>
    ensures answer { result ≡ text_answer (refusal refused.rule refused.at) out.old }
    ensures buffer { out.new ≡ held (refusal refused.rule refused.at) out.old }
    ensures numbers { written_numbers result ≡ held_numbers (refusal refused.rule refused.at) out.old }
    ensures enough { RoomEnough (refusal refused.rule refused.at) out.old result }
{
    let number = u64::from(refused.rule);
    // `usize` and `u64` have no `From`, and `try_from` would bring a refusal that cannot come
    let offset = refused.at as u64;
    if out.len() < width(number) + width(offset) + 13 {
        return Err(Rule::BufferShort.into());
    }
    let a = put_bytes(out, 0, b"refused ");
    let b = put_decimal(out, a, number);
    let c = put_bytes(out, b, b" at ");
    let d = put_decimal(out, c, offset);
    out[d] = b'\n';
    Ok(d + 1)
}
