// A row's line.
ghost use Rattle.std.specs.Prelude.{◌≡◌, ◌+◌, ◌≤◌, length};
ghost use Rattle.text.specs.TextLengths.{most_line};
ghost use Rattle.output.specs.Writing.{Wrote};
ghost use Rattle.judgement.specs.Verdicts.{verdict_word};
ghost use Rattle.text.specs.Line.{spaced, line};

use crate::Row;
use crate::columns::{numbers, numbers_len, put_numbers};
use judgement::Verdict;
use output::put_bytes;

// The word of a verdict.
#[tactic(auto, unfolding(judgement::specs::Verdicts::verdict_word))]
pub fn mark(verdict: Verdict) -> &'static [u8]
    ensures { (result.now ≡ verdict_word verdict) × (length result.now ≤ 6) }
{
    match verdict {
        Verdict::Within => b"within",
        Verdict::Over { .. } => b"over",
    }
}

// Writes a space and the mark.
#[tactic(auto, using(output::proofs::WritingLaws::stored_then), unfolding(crate::specs::Line::spaced))]
fn put_mark(out: &mut [u8], at: usize, verdict: Verdict) -> usize
    requires { at + length (spaced (verdict_word verdict)) ≤ length out.old }
    ensures { Wrote out.old at (spaced (verdict_word verdict)) out.new result }
{
    out[at] = b' ';
    put_bytes(out, at + 1, mark(verdict))
}

// How many bytes a row's line has.
#[tactic(auto, using(crate::proofs::LineLaws::line_lengths), unfolding(crate::specs::Line::name_text))]
pub fn line_len(row: Row) -> usize
    ensures { (result ≡ length (line row)) × (result ≤ most_line) }
{
    row.name.as_slice().len() + numbers_len(numbers(row)) + mark(row.verdict).len() + 2
}

#[tactic(auto, unfolding(crate::specs::Line::spaced, crate::specs::Line::line, crate::specs::Line::body, crate::specs::Line::name_text))]
pub fn put_line(out: &mut [u8], at: usize, row: Row) -> usize
    requires { at + length (line row) ≤ length out.old }
    ensures { Wrote out.old at (line row) out.new result }
{
    let a = put_bytes(out, at, row.name.as_slice());
    let b = put_numbers(out, a, numbers(row));
    let d = put_mark(out, b, row.verdict);
    out[d] = b'\n';
    d + 1
}
