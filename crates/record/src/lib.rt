// Site records: reading and writing one, and the walk over a file of them.
#![tactic(auto)]

mod bytes;
mod found;
mod inner;
mod outer;
mod put;
mod reading;
mod records;
mod value;
mod writer;

pub use found::Found;
pub use outer::{read_at, read_record};
pub use records::{Records, read_sites};
pub use writer::{put_record, record_len, write_record};
