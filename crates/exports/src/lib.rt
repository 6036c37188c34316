// The C interface: `docs/forest.h` describes it for its users. C lends each buffer as a slice, and nothing is allocated.
#![tactic(auto)]

mod codes;
mod convert_calls;
mod file_calls;
mod layout;
mod putting;
mod record_calls;
mod sample_calls;
mod value_calls;

pub use convert_calls::forest_convert;
pub use file_calls::{forest_list, forest_pages, forest_report};
pub use record_calls::forest_rewrite;
pub use sample_calls::forest_sample;
pub use value_calls::{forest_check, forest_judge, forest_level, forest_loads};
