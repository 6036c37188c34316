// The length that a field states.
ghost use Rattle.std.specs.Prelude.{◌≡◌, ◌≤◌};
ghost use Rattle.record.specs.FieldParts.{stated_len};

use numbers::word_at;

// The length that a field's second and third byte state.
pub fn stated_len(s: &[u8]) -> usize
    ensures { (result ≡ stated_len s.now) × (result ≤ 65535) }
{
    usize::from(word_at(s, 1))
}
