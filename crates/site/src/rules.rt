// A rule as a number, and as a refusal.
ghost use Rattle.std.specs.Prelude.{◌≡◌};
ghost use Rattle.site.specs.Refusal.{rule_number};

use crate::{Refusal, Rule};

// The number of a rule.
impl From<Rule> for u64 {
    ghost from_gives = { λ rule n. n ≡ rule_number rule };

    fn from(rule: Rule) -> u64 {
        // the number of its case, which a match would only write out
        rule as u64
    }
}

// What is refused as a whole is refused at 0.
impl From<Rule> for Refusal {
    ghost from_gives = { λ rule refusal. refusal ≡ record { rule = rule; at = 0 } };

    fn from(rule: Rule) -> Refusal {
        Refusal { rule, at: 0 }
    }
}
