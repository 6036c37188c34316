// The judgement of a site's deposition: regions, exceedances and the verdict.
#![tactic(auto)]

mod exceedance;
mod judging;
mod position;
mod regions;

pub use judging::{judge, judge_passed};
use loads::Loads;

// The acid regions of document 01, "Judging a pair S, N", by number, with the condition under which each is the first that applies. n is N − CLminN.
#[derive(Clone, Copy, Debug, PartialEq, Eq)]
pub enum Region {
    // S ≤ CLmaxS, and n ≤ 0 or v ≤ 0
    AcidKept = 0,
    // 1000 × v > S × D
    NoSulphur = 1,
    // otherwise
    Slope = 2,
    // e × v > n × D
    Corner = 3,
    // n ≤ 0
    SulphurOnly = 4,
}

// Within, or over with the region and both exceedances, the form of document 01. Over by nitrogen as a nutrient alone has region 0.
#[derive(Clone, Copy, Debug, Default, PartialEq, Eq)]
pub enum Verdict {
    #[default]
    Within,
    Over {
        region: Region,
        acid: u64,
        nutrient: u64,
    },
}

#[derive(Clone, Copy, Debug, PartialEq, Eq)]
pub struct Judged {
    pub loads: Loads,
    pub verdict: Verdict,
}
