// The records of a file moved to one kind.
#![tactic(auto)]

mod converting;
mod moving;
mod targets;

pub use converting::convert;
pub use targets::Target;
