// Reading a file into a buffer.
ghost use Rattle.std.specs.Prelude.{◌≡◌, ◌≢◌, ◌≤◌, length, drop, IfSome};
ghost use Rattle.program.specs.declared.ReadState.TheVariants.{Failed};
ghost use Rattle.program.specs.Printing.{ReadFrom};
ghost use Rattle.program.specs.Reads.{after_read, Given, ReadOnce, ReadAll};

use crate::{Input, ReadState};
use std::cmp::Ordering;
use std::io::Read;

// `done` bytes are in a buffer of `size`, and a read gave `got` more, or failed.
#[tactic(auto, unfolding(crate::specs::Reads::after_read))]
pub fn after_read(size: usize, done: usize, got: Option<usize>) -> ReadState
    ensures { result ≡ after_read size done got }
{
    let room = size.saturating_sub(done);
    match got {
        None => ReadState::Failed,
        Some(0) => ReadState::Ended(done),
        Some(n) => match n.cmp(&room) {
            Ordering::Less => ReadState::More(done + n),
            Ordering::Equal => ReadState::Ended(size),
            Ordering::Greater => ReadState::Failed,
        },
    }
}

// One read, behind the bytes that are there.
fn read_once<R: Read>(reader: &mut R, buffer: &mut [u8], done: usize) -> Input
    requires { done ≤ length buffer.old }
    ensures read { ReadOnce buffer.old buffer.new done result }
    ensures given { Given (R.remaining reader.old) (R.remaining reader.new) (drop done buffer.new) result.last }
{
    let last = reader.read(&mut buffer[done..]).ok();
    let reading = after_read(buffer.len(), done, last);
    Input { reading, last }
}

// Reads until the file ends or the buffer is full, however small the pieces are, or a read fails. `whole` is for readers of which it is
// known what they have left: that is the file.
pub fn read_all<R: Read>(reader: &mut R, buffer: &mut [u8]) -> Input
    ensures read { ReadAll (length buffer.old) result }
    ensures whole { IfSome (R.remaining reader.old) (λ f. result.reading ≢ Failed → ReadFrom f buffer.new result.reading) }
{
    let mut done = 0;
    // a `for` has nothing to run over: each read says how far it came
    loop {
        let input = read_once(reader, buffer, done);
        let ReadState::More(n) = input.reading else {
            return input;
        };
        done = n;
    }
}
