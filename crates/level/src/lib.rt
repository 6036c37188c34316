// The hydrogen level of a site, and how many levels the search for it compares.
#![tactic(auto)]

mod at_site;

pub use at_site::level_at;
