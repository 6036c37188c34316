// Numbers in decimal.
ghost use Rattle.std.specs.Prelude.{◌≡◌, ◌≤◌, length};
ghost use Rattle.text.specs.Decimal.{decimal};
ghost use Rattle.output.specs.Writing.{WroteIf};

use itoa::write_digits;

// How many decimal digits n has.
#[tactic(auto, using(crate::proofs::DecimalLaws::length_small, crate::proofs::DecimalLaws::length_between))]
pub fn width(n: u64) -> usize
    ensures { (result ≡ length (decimal n)) × (result ≤ 20) }
{
    match n.checked_ilog10() {
        None => 1,
        // `usize` and `u32` have no `From`
        Some(k) => k as usize + 1,
    }
}

// Writes n at index at, and returns the index after it; where it does not fit, nothing is written. The digits stand in place at once, where
// itoa's Buffer would have them copied.
#[tactic(auto, using(output::proofs::WritingLaws::wrote_none))]
pub fn put_decimal(out: &mut [u8], at: usize, n: u64) -> usize
    ensures { WroteIf out.old at (decimal n) out.new result }
{
    match at.checked_add(width(n)) {
        Some(end) if end <= out.len() => {
            write_digits(n, out, end);
            end
        }
        _ => at,
    }
}
