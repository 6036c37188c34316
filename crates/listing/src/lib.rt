// The listing of a file of records.
#![tactic(auto)]

mod listing;
mod reporting;
mod walking;

pub use listing::list;
pub use reporting::report;
pub use walking::walk_file;
