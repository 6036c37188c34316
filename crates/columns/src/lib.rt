// A line of a page: the header, or a row, in columns of fixed width; how it is put is said in `text`.
#![tactic(auto)]

mod column;
mod line;

pub use line::{put_header, put_row};
