// The lines of a page.
ghost use Rattle.std.specs.Prelude.{◌≡◌, length};
ghost use Rattle.output.specs.Writing.{WroteIf};
ghost use Rattle.columns.specs.PageLine.{head_line, number_columns, row_line, ended};

use crate::column::{put_left, put_number, put_right};
use output::put_bytes;
use text::{Row, mark, numbers};

// Writes the header's line, and returns the index after it; where it does not fit, nothing is written.
#[tactic(auto, using(crate::proofs::PageLineLaws::head_bytes))]
pub fn put_header(out: &mut [u8], at: usize) -> usize
    ensures { WroteIf out.old at (ended head_line) out.new result }
{
    put_bytes(
        out,
        at,
        b"id          maxS    minN    maxN    nutNre acidEx  nutExverdict \n",
    )
}

// How wide the columns of the numbers are: the four loads, the region and the two exceedances.
const WIDTHS: [usize; 7] = [8, 8, 8, 8, 2, 7, 7];

fn put_numbers(columns: &mut [u8], ns: [u64; 7])
    requires { length columns.old ≡ 48 }
    ensures { columns.new ≡ number_columns ns }
{
    // where the next column starts: they differ in width
    let mut at = 0;
    for (n, width) in ns.iter().zip(&WIDTHS) {
        put_number(&mut columns[at..at + *width], *n);
        at += *width;
    }
}

// A row's line, with its end.
fn put_line(line: &mut [u8; 65], row: Row)
    ensures { line.new ≡ ended (row_line row) }
{
    put_left(&mut line[..8], row.name.as_slice());
    put_numbers(&mut line[8..56], numbers(row));
    put_right(&mut line[56..63], mark(row.verdict));
    line[63..65].copy_from_slice(b" \n");
}

// Writes a row's line, and returns the index after it; where it does not fit, nothing is written.
pub fn put_row(out: &mut [u8], at: usize, row: Row) -> usize
    ensures { WroteIf out.old at (ended (row_line row)) out.new result }
{
    let mut line = [0u8; 65];
    put_line(&mut line, row);
    put_bytes(out, at, &line)
}
