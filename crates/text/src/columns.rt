// The seven numbers of a line.
ghost use Rattle.std.specs.Prelude.{◌≡◌, ◌+◌, ◌≤◌, length, flat_map};
ghost use Rattle.output.specs.Writing.{Wrote};
ghost use Rattle.text.specs.Line.{numbers_of, column};

use crate::Row;
use crate::decimal::{put_decimal, width};
use judgement::Verdict;

// Those of a row: the loads, then region and exceedances, 0 0 0 where it is within.
#[tactic(auto, unfolding(crate::specs::Line::numbers_of, loads::specs::CriticalLoads::load_numbers, judgement::specs::Verdicts::verdict_numbers))]
pub fn numbers(row: Row) -> [u64; 7]
    ensures { result ≡ numbers_of row }
{
    let l = row.loads;
    match row.verdict {
        Verdict::Within => [l.max_s, l.min_n, l.max_n, l.nut_n, 0, 0, 0],
        Verdict::Over {
            region,
            acid,
            nutrient,
        } => {
            let region = u64::from(region);
            [l.max_s, l.min_n, l.max_n, l.nut_n, region, acid, nutrient]
        }
    }
}

// Writes a space and n.
#[tactic(auto, using(output::proofs::WritingLaws::stored_then), unfolding(crate::specs::Line::column, crate::specs::Line::spaced))]
fn put_number(out: &mut [u8], at: usize, n: u64) -> usize
    requires { at + length (column n) ≤ length out.old }
    ensures { Wrote out.old at (column n) out.new result }
{
    out[at] = b' ';
    put_decimal(out, at + 1, n)
}

// Writes the numbers, each after a space. `put_lines` does the same with lines: one function for both, over a closure that is lent the buffer, is no plainer.
#[tactic(auto, using(output::proofs::WritingLaws::nothing, output::proofs::EachLaws::next_fits, output::proofs::EachLaws::next_written))]
pub fn put_numbers(out: &mut [u8], mut at: usize, ns: [u64; 7]) -> usize
    requires { at + length (flat_map column ns) ≤ length out.old }
    ensures { Wrote out.old at (flat_map column ns) out.new result }
{
    for n in ns {
        at = put_number(out, at, n);
    }
    at
}

// How many bytes put_numbers writes; a `sum` would need a proof that it fits and one of its value.
#[tactic(auto, using(crate::proofs::LineLaws::line_lengths), unfolding(crate::specs::Line::column, crate::specs::Line::spaced))]
pub fn numbers_len(ns: [u64; 7]) -> usize
    ensures { (result ≡ length (flat_map column ns)) × (result ≤ 147) }
{
    let mut len = 0;
    for n in ns {
        len += width(n) + 1;
    }
    len
}
