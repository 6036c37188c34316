// Numbers that stand in bytes.
#![tactic(auto)]

mod bytes;

pub use bytes::{byte, word_at};
