// A list of species that a buyer lends: its check, and the search in it.
ghost use Rattle.std.specs.Prelude.{◌≡◌, ◌≤◌, ◌<◌, [], MatchResult, Ok, Err};
ghost use Rattle.numbers.specs.TwoBytes.{AllBytes};
ghost use Rattle.site.specs.Refusal.{rule_number};
ghost use Rattle.site.specs.SpeciesList.{entry_count, number_at, place_of, lists, list_rule, list_fault, GoodList, FirstBad};

use crate::{Refusal, Rule};
use numbers::word_at;

// A list that passes its check. No other can be held, so that a call that takes it need not check it.
#[derive(Clone, Copy)]
pub struct SpeciesList<'a> {
    pub bytes: &'a [u8],
    ghost good: { list_rule bytes.now ≡ Ok tt },
    ghost whole: { AllBytes bytes.now },
}

impl<'a> SpeciesList<'a> {
    // The list in these bytes, or rule 15 at the first entry that breaks it.
    #[tactic(auto, using(crate::proofs::ListLaws::good_none, crate::proofs::ListLaws::good_list))]
    pub fn checked(bytes: &'a [u8]) -> Result<SpeciesList<'a>, Refusal>
        ensures answer { MatchResult result (λ list. (list_rule bytes.now ≡ Ok tt) × (list.bytes.now ≡ bytes.now)) (λ refusal. (list_rule bytes.now ≡ Err refusal.rule) × (refusal.at ≡ list_fault bytes.now)) }
        ensures number { MatchResult result (λ list. GoodList bytes.now) (λ refusal. (rule_number refusal.rule ≡ 15) × FirstBad bytes.now refusal.at) }
    {
        let n = bytes.len() / 10;
        let mut least = 256;
        for i in 0..n {
            let at = 10 * i;
            let number = word_at(bytes, at);
            if number < least || 1023 < number {
                let rule = Rule::BadList;
                return Err(Refusal { rule, at });
            }
            least = number + 1;
        }
        let at = 10 * n;
        if at != bytes.len() {
            let rule = Rule::BadList;
            return Err(Refusal { rule, at });
        }
        Ok(SpeciesList { bytes })
    }

    // The list of no entries, which passes its check.
    #[tactic(auto, using(crate::proofs::LookupLaws::empty_good))]
    pub fn empty() -> SpeciesList<'static>
        ensures { result.bytes.now ≡ [] }
    {
        SpeciesList { bytes: &[] }
    }

    // The number of an entry. Each byte is there, so that nothing is tested.
    fn number_at(self, i: usize) -> u16
        requires { i < entry_count self.bytes.now }
        ensures { result ≡ number_at self.entry.bytes.now i }
    {
        let at = 10 * i;
        u16::from_be_bytes([self.bytes[at], self.bytes[at + 1]])
    }

    // The entry with a number, or how many entries there are where none has it. The numbers rise, so each turn halves what is left: `size` entries from `low`
    // on, as many either way, so that no branch has to be foreseen.
    #[tactic(auto, using(crate::proofs::SearchLaws::starts))]
    pub fn place_of(self, number: u16) -> usize
        ensures place { result ≡ place_of self.entry.bytes.now number }
        ensures inside { result ≤ entry_count self.entry.bytes.now }
    {
        let n = self.bytes.len() / 10;
        let mut low = 0;
        let mut size = n;
        // a `for` has nothing to run over
        while size > 1 {
            let half = size / 2;
            if self.number_at(low + half) <= number {
                low += half;
            }
            size -= half;
        }
        if low < n && self.number_at(low) == number {
            low
        } else {
            n
        }
    }

    #[tactic(auto, unfolding(crate::specs::SpeciesList::lists))]
    pub fn lists(self, number: u16) -> bool
        ensures { result ≡ lists self.entry.bytes.now number }
    {
        self.place_of(number) < self.bytes.len() / 10
    }
}
