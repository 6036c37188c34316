// A text or a number in a column.
ghost use Rattle.std.specs.Prelude.{◌≡◌, length};
ghost use Rattle.text.specs.Decimal.{decimal};
ghost use Rattle.columns.specs.PageLine.{left_in, right_in};

use itoa::Buffer;

// A text aligned left, cut to its first characters where the column is narrower, and spaces behind it.
pub fn put_left(column: &mut [u8], text: &[u8])
    ensures { column.new ≡ left_in (length column.old) text.now }
{
    let n = text.len().min(column.len());
    column.fill(b' ');
    column[..n].copy_from_slice(&text[..n]);
}

// The same, aligned right.
pub fn put_right(column: &mut [u8], text: &[u8])
    ensures { column.new ≡ right_in (length column.old) text.now }
{
    let n = text.len().min(column.len());
    let at = column.len() - n;
    column.fill(b' ');
    column[at..].copy_from_slice(&text[..n]);
}

#[tactic(auto, using(text::proofs::DecimalLaws::printed))]
pub fn put_number(column: &mut [u8], n: u64)
    ensures { column.new ≡ right_in (length column.old) (decimal n) }
{
    put_right(column, Buffer::new().format(n).as_bytes());
}
