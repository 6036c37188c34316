// Numbers put into a lent slice.
ghost use Rattle.std.specs.Prelude.{◌≡◌, length};
ghost use Rattle.exports.specs.Numbers.{numbers_written, numbers_held};

use site::{Refusal, Rule};

// N numbers at the front of the slice, or what refuses them; 11 comes last.
#[tactic(auto, using(output::proofs::OutputLaws::room_enough, output::proofs::OutputLaws::room_short), unfolding(crate::specs::Numbers::numbers_written, crate::specs::Numbers::numbers_held, site::specs::Refusal::unless, output::specs::Output::held_after))]
pub fn put_numbers<const N: usize>(
    numbers: Result<[u64; N], Refusal>,
    out: &mut [u64],
) -> Result<usize, Refusal>
    ensures answer { result ≡ numbers_written numbers.entry (length out.old) }
    ensures buffer { out.new ≡ numbers_held numbers.entry out.old }
{
    let numbers = numbers?;
    if out.len() < N {
        return Err(Rule::BufferShort.into());
    }
    out[..N].copy_from_slice(&numbers);
    Ok(N)
}
