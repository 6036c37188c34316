// Twelve months in bytes, with zeros past the end. The bound on each place keeps those after it within a usize.
ghost use Rattle.std.specs.Prelude.{◌≡◌, ◌≤◌};
ghost use Rattle.readings.specs.MonthBytes.{float_at, reading_at, month_at, months_in};

use numbers::{byte, word_at};
use sampler::{Month, Reading};
use std::array;

// A NaN cannot be made from its bits.
#[tactic(auto, using(crate::proofs::FloatByteLaws::not_a_number, std::proofs::lemmas::Float::not_nan_f32_bits), unfolding(crate::specs::MonthBytes::float_at))]
fn float_at(b: &[u8], i: usize) -> f32
    requires { i ≤ 204 }
    ensures { result ≡ float_at b.now i }
{
    let bits = u32::from_be_bytes(array::from_fn(|k| byte(b, i + k)));
    if bits % 0x8000_0000 > 0x7f80_0000 {
        return f32::NAN;
    }
    f32::from_bits(bits)
}

#[tactic(auto, unfolding(crate::specs::MonthBytes::reading_at))]
fn reading_at(b: &[u8], i: usize) -> Reading
    requires { i ≤ 200 }
    ensures { result ≡ reading_at b.now i }
{
    let x = float_at(b, i + 1);
    match byte(b, i) {
        0 => Reading::Measured(x),
        1 => Reading::Below(x),
        _ => Reading::Missing,
    }
}

#[tactic(auto, unfolding(crate::specs::MonthBytes::month_at))]
fn month_at(b: &[u8], i: usize) -> Month
    requires { i ≤ 187 }
    ensures { result ≡ month_at b.now i }
{
    Month {
        rain: word_at(b, i),
        sulphate: reading_at(b, i + 2),
        nitrate: reading_at(b, i + 7),
        ammonium: reading_at(b, i + 12),
    }
}

pub fn months_in(b: &[u8]) -> [Month; 12]
    ensures { result ≡ months_in b.now }
{
    array::from_fn(|k| month_at(b, 17 * k))
}
