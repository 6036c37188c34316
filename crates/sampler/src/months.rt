// What a month brings: mm of rain times µg per litre, which is µg per square metre.
ghost use Rattle.std.specs.Prelude.{◌≡◌, ◌*◌, ◌≤◌, IfOk};
ghost use Rattle.sampler.specs.Micrograms.{most_micrograms};
ghost use Rattle.sampler.specs.MonthRules.{most_rain, reading_of, micrograms, deposition_of};

use crate::floats::concentration_of;
use crate::{Month, Reading};
use site::Rule;

// Sulphur, and both forms of nitrogen together.
#[derive(Clone, Copy)]
pub struct Deposition {
    pub sulphur: u64,
    pub nitrogen: u64,
}

// A value below the detection limit counts as the limit.
#[tactic(auto, using(crate::proofs::ConcentrationLaws::micrograms_le))]
fn reading_of(reading: Reading) -> Result<u64, Rule>
    ensures { (result ≡ reading_of reading) × (micrograms result ≤ most_micrograms) }
{
    match reading {
        Reading::Measured(x) => concentration_of(x),
        Reading::Below(limit) => concentration_of(limit),
        Reading::Missing => Err(Rule::NoReading),
    }
}

// The rain's rule first, then sulphate, nitrate and ammonium. With the bounds twelve months add up.
#[tactic(auto, unfolding(crate::specs::MonthRules::month_rule, site::specs::Refusal::and_then, crate::specs::MonthRules::sulphur_of, crate::specs::MonthRules::nitrogen_of))]
pub fn month_deposition(m: Month) -> Result<Deposition, Rule>
    ensures answer { result ≡ deposition_of m }
    ensures bounded { IfOk result (λ d. (d.sulphur ≤ most_rain * most_micrograms) × (d.nitrogen ≤ most_rain * (2 * most_micrograms))) }
{
    if m.rain > 1000 {
        return Err(Rule::OutOfRange);
    }
    let rain = u64::from(m.rain);
    let s = reading_of(m.sulphate)?;
    let n = reading_of(m.nitrate)?;
    let a = reading_of(m.ammonium)?;
    Ok(Deposition {
        sulphur: rain * s,
        nitrogen: rain * (n + a),
    })
}
