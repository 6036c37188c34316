// The fields of a site record, one at a time: a field's bytes taken into a site.
#![tactic(auto)]

mod start;
mod taking;

pub use start::blank;
pub use taking::take_field;
