// The listing of rows.
ghost use Rattle.std.specs.Prelude.{◌≡◌, ◌+◌, ◌*◌, ◌≤◌, min, length, flat_map};
ghost use Rattle.output.specs.Writing.{Wrote};
ghost use Rattle.text.specs.Line.{line};
ghost use Rattle.output.specs.Output.{written_numbers, held_numbers, held};
ghost use Rattle.text.specs.TextAnswer.{text_answer, RoomEnough};
ghost use Rattle.text.specs.Listing.{listing};
ghost use Rattle.text.specs.TextLengths.{header_length, most_line};
ghost use Rattle.text.specs.Marks.{Marked};

use crate::Row;
use crate::line::{line_len, put_line};
use output::put_bytes;
use site::{Refusal, Rule};

// How many bytes the listing has, or the greatest usize where it has more: `sum` does not saturate.
#[tactic(auto, using(std::proofs::lemmas::Grind::common_steps, crate::proofs::LineLaws::line_lengths))]
fn listing_len(rows: &[Row]) -> usize
    ensures counted { result ≡ min (length (listing rows.now)) usize.MAX }
    ensures bounded { length (listing rows.now) ≤ header_length + most_line * length rows.now }
{
    let mut n: usize = 51;
    for row in rows {
        n = n.saturating_add(line_len(*row));
    }
    n
}

// Writes the lines of the rows.
#[tactic(auto, using(output::proofs::WritingLaws::nothing, output::proofs::EachLaws::next_fits))]
fn put_lines(out: &mut [u8], mut at: usize, rows: &[Row]) -> usize
    requires { at + length (flat_map line rows.now) ≤ length out.old }
    ensures { Wrote out.old at (flat_map line rows.now) out.new result }
{
    for row in rows {
        at = put_line(out, at, *row);
    }
    at
}

// Writes the listing of the rows at the start of out. A buffer that is too short stays as it is.
pub fn put_listing(out: &mut [u8], rows: &[Row]) -> Result<usize, Refusal>
    ensures answer { result ≡ text_answer (listing rows.now) out.old }
    ensures buffer { out.new ≡ held (listing rows.now) out.old }
    ensures numbers { written_numbers result ≡ held_numbers (listing rows.now) out.old }
    ensures enough { length rows.now ≤ 500 → RoomEnough (listing rows.now) out.old result }
    ensures marks { Marked rows.now out.new result }
{
    if out.len() < listing_len(rows) {
        return Err(Rule::BufferShort.into());
    }
    let at = put_bytes(
        out,
        0,
        b"id maxS minN maxN nutN region acidEx nutEx verdict\n",
    );
    Ok(put_lines(out, at, rows))
}
