// Twelve months of the rain sampler, taken to the pair S, N of the year, which is judged at a site.
#![tactic(auto)]

mod floats;
mod judging;
mod months;
mod years;

use judgement::Judged;
pub use judging::{judge_months, refuse_checked};

// A concentration in mg per litre: as measured, the detection limit it lay below, or missing.
#[derive(Clone, Copy)]
pub enum Reading {
    Measured(f32),
    Below(f32),
    Missing,
}

// Rain in mm, and the readings of sulphate sulphur, nitrate nitrogen and ammonium nitrogen.
#[derive(Clone, Copy)]
pub struct Month {
    pub rain: u16,
    pub sulphate: Reading,
    pub nitrate: Reading,
    pub ammonium: Reading,
}

// The pair S, N of a year.
#[derive(Clone, Copy)]
pub struct Pair {
    pub sulphur: u16,
    pub nitrogen: u16,
}

// The pair with its judgement at a site.
#[derive(Clone, Copy)]
pub struct Sampled {
    pub pair: Pair,
    pub judged: Judged,
}
