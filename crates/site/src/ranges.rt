// Rule 8 for the values that are numbers: the ranges of documents 01 and 02.
ghost use Rattle.std.specs.Prelude.{◌≡◌, ◌+◌, leb};
ghost use Rattle.site.specs.Ranges.{most_texture};
ghost use Rattle.site.specs.Values.{ranged, between};

use crate::Rule;

// Rule 8 by a test.
pub fn ranged(ok: bool) -> Result<(), Rule>
    ensures { result ≡ ranged ok }
{
    if ok { Ok(()) } else { Err(Rule::OutOfRange) }
}

// The least and the greatest value that is accepted.
#[derive(Clone, Copy, Debug, PartialEq, Eq)]
pub struct Range {
    pub least: u16,
    pub most: u16,
}

impl Range {
    #[tactic(auto, unfolding(crate::specs::Values::between))]
    pub fn check(self, x: u16) -> Result<(), Rule>
        ensures { result ≡ between self x }
    {
        ranged(self.least <= x && x <= self.most)
    }
}

pub const PARENT: Range = Range { least: 0, most: 4 };

pub const DEPTH: Range = Range {
    least: 1,
    most: 200,
};

pub const DRAINAGE: Range = Range { least: 0, most: 5 };

pub const PERCOLATION: Range = Range {
    least: 1,
    most: 3000,
};

pub const IMMOBILISATION: Range = Range {
    least: 0,
    most: 500,
};

pub const AVAILABLE: Range = Range {
    least: 70,
    most: 85,
};

pub const BASE_DEPOSITION: Range = Range {
    least: 0,
    most: 5000,
};

pub const RATIO: Range = Range {
    least: 100,
    most: 20000,
};

pub const GIBBSITE: Range = Range {
    least: 1,
    most: 10000,
};

pub const CEILING: Range = Range {
    least: 1,
    most: 5000,
};

pub const LEACHATE: Range = Range {
    least: 1,
    most: 1000,
};

pub const TEMPERATURE: Range = Range { least: 0, most: 25 };

pub const DIOXIDE: Range = Range {
    least: 0,
    most: 5000,
};

// Clay and sand have no range of their own, but their sum.
pub fn texture_rule(clay: u8, sand: u8) -> Result<(), Rule>
    ensures { result ≡ ranged (leb (clay + sand) most_texture) }
{
    ranged(u16::from(clay) + u16::from(sand) <= 100)
}
