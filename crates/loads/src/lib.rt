// The critical loads of a site: the terms of document 01, "Terms, in order".
#![tactic(auto)]

mod bases;
mod critical;
mod hydrogen;
mod nitrogen;
mod passed;
mod temperature;
mod texture;
mod uptake;
mod valid;
mod weathering;

pub use bases::aluminium_limit;
pub use critical::critical_loads;
pub use hydrogen::greatest_level;
pub use nitrogen::undenitrified_at;
pub use passed::{PassedSite, check_load, check_site};

// The greatest allowed hydrogen level, and how many levels were compared with the aluminium limit to find it.
#[derive(Clone, Copy, Debug, PartialEq, Eq)]
pub struct Searched {
    pub level: u64,
    pub compared: u64,
}

// Whole eq per hectare and year: CLmaxS, CLminN, CLmaxN, CLnutN.
#[derive(Clone, Copy, Debug, Default, PartialEq, Eq)]
pub struct Loads {
    pub max_s: u64,
    pub min_n: u64,
    pub max_n: u64,
    pub nut_n: u64,
}
