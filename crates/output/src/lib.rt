// Output into a lent buffer.
#![tactic(auto)]

mod writing;

pub use writing::put_bytes;
