// The listing of a file as pages for the printer.
#![tactic(auto)]

mod paging;

pub use paging::list_pages;
