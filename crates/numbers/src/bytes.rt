// Numbers that stand in bytes, with zeros past the end.
ghost use Rattle.std.specs.Prelude.{◌≡◌, get_or};
ghost use Rattle.numbers.specs.TwoBytes.{word_at};

pub fn byte(s: &[u8], i: usize) -> u8
    ensures { result ≡ get_or s.now i 0 }
{
    s.get(i).copied().unwrap_or(0)
}

// The number whose high byte is at i.
pub fn word_at(s: &[u8], i: usize) -> u16
    ensures { result ≡ word_at s.now i }
{
    let Some(&hi) = s.get(i) else {
        return 0;
    };
    u16::from_be_bytes([hi, byte(s, i + 1)])
}
