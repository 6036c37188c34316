// The program over any reader and writer: what follows a read, what is printed, and the whole.
#![tactic(auto)]

mod printing;
mod reader;
mod running;

pub use printing::to_print;
pub use reader::{after_read, read_all};
pub use running::run;

// Where the reading of a file stands, with how many bytes are read: three outcomes, so no `Result`.
#[derive(Clone, Copy, Debug, PartialEq, Eq)]
pub enum ReadState {
    More(usize),
    Ended(usize),
    Failed,
}

// Where the reads have led, and how many bytes the last of them gave: `None` where it failed.
#[derive(Clone, Copy, Debug, PartialEq, Eq)]
pub struct Input {
    pub reading: ReadState,
    pub last: Option<usize>,
}
