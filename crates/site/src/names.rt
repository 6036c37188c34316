// Rule 8 for the name: A–Z, 0–9, hyphen.
ghost use Rattle.std.specs.Prelude.{◌≡◌, ◌≤◌, length, take};
ghost use Rattle.std.specs.List.{list_all};
ghost use Rattle.site.specs.Values.{name_byte, ranged};

use crate::ranges::ranged;
use crate::{Name, Rule};

#[tactic(auto, unfolding(crate::specs::Values::name_byte))]
fn name_byte(b: u8) -> bool
    ensures { result ≡ name_byte b }
{
    matches!(b, b'A'..=b'Z' | b'0'..=b'9' | b'-')
}

impl Name {
    // No bytes stand past the eighth.
    #[tactic(auto, using(crate::proofs::PartLaws::take_min))]
    pub fn as_slice(&self) -> &[u8]
        ensures bytes { result.now ≡ take self.now.len self.now.bytes }
        ensures short { length result.now ≤ 8 }
    {
        &self.bytes[..usize::from(self.len).min(8)]
    }

    pub fn check(&self) -> Result<(), Rule>
        ensures { result ≡ ranged (list_all name_byte (take self.now.len self.now.bytes)) }
    {
        ranged(self.as_slice().iter().all(|b| name_byte(*b)))
    }
}
