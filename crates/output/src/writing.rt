// Bytes into a lent buffer.
ghost use Rattle.output.specs.Writing.{WroteIf};

// Writes text at index at, and returns the index after it; where it does not fit, nothing is written.
#[tactic(auto, using(crate::proofs::WritingLaws::wrote_none, crate::proofs::WritingLaws::copied))]
pub fn put_bytes(out: &mut [u8], at: usize, text: &[u8]) -> usize
    ensures { WroteIf out.old at text.now out.new result }
{
    match at.checked_add(text.len()) {
        Some(end) if end <= out.len() => {
            out[at..end].copy_from_slice(text);
            end
        }
        _ => at,
    }
}
