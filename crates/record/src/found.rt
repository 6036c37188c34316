// A record of a file that was read.
ghost use Rattle.std.specs.Prelude.{◌≡◌, ◌-◌, MatchResult, Ok, Err};
ghost use Rattle.loads.specs.SiteTerms.{terms_of};
ghost use Rattle.loads.specs.MaxS.{load_rule};
ghost use Rattle.record.specs.Outer.{dioxide_length};

use loads::{PassedSite, check_load};
use site::{CheckedFields, Refusal, Rule, Site};

/// A record of a file, and where the next one starts.
#[derive(Clone, Copy)]
pub struct Found {
    pub site: Site,
    pub next: usize,
}

// A record of a file whose fields are all accepted, and where the next one starts. Rule 21 is still to be asked.
#[derive(Clone, Copy)]
pub struct FieldsFound<'a> {
    pub checked: CheckedFields<'a>,
    pub next: usize,
}

impl<'a> FieldsFound<'a> {
    // A rule that is broken at field 11, with which the record ends.
    fn refusal(self, rule: Rule) -> Refusal
        ensures { result ≡ record { rule = rule; at = self.entry.next - dioxide_length } }
    {
        // only a record that has the field breaks such a rule, and it is longer
        let at = self.next.saturating_sub(5);
        Refusal { rule, at }
    }

    // Rule 21, and the loads that it works out.
    #[tactic(auto, using(loads::proofs::CheckLaws::fields_then))]
    pub fn passed(self) -> Result<PassedSite<'a>, Refusal>
        ensures { let s = self.entry.checked in let t = terms_of s.list.bytes.now s.site in MatchResult result (λ p. (load_rule t ≡ Ok tt) × (p.site ≡ s.site) × (p.list.bytes.now ≡ s.list.bytes.now)) (λ refusal. (load_rule t ≡ Err refusal.rule) × (refusal.at ≡ self.entry.next - dioxide_length)) }
    {
        match PassedSite::of(self.checked) {
            Ok(passed) => Ok(passed),
            Err(rule) => Err(self.refusal(rule)),
        }
    }

    // The rule alone.
    pub fn check_load(self) -> Result<(), Refusal>
        ensures { let s = self.entry.checked in let t = terms_of s.list.bytes.now s.site in MatchResult result (λ u. load_rule t ≡ Ok tt) (λ refusal. (load_rule t ≡ Err refusal.rule) × (refusal.at ≡ self.entry.next - dioxide_length)) }
    {
        match check_load(self.checked) {
            Ok(()) => Ok(()),
            Err(rule) => Err(self.refusal(rule)),
        }
    }
}
