// A float in mg per litre as whole µg per litre, up: exactly, from the float's bits.
ghost use Rattle.std.specs.Prelude.{◌≡◌, ◌*◌, ◌≤◌, ◌<◌, ◌^◌};
ghost use Rattle.loads.specs.Rounding.{up};
ghost use Rattle.sampler.specs.Micrograms.{concentration_of};
ghost use Rattle.sampler.specs.FloatBits.{exponent, units};

use site::Rule;

// 1000 × q / 2 ^ s, up: 1 at most from s 63 on, so that no greater power is needed.
#[tactic(auto, using(crate::proofs::QuotientLaws::up_power))]
fn scaled(q: u64, s: u64) -> u64
    requires { q < 16777216 }
    ensures { result ≡ up (1000 * q) (2 ^ s) }
{
    (1000 * q).div_ceil(1 << s.min(63))
}

// The number that the bits stand for without their sign, × 1000, up. An exponent of 0 has no hidden bit.
#[tactic(auto, using(crate::proofs::BitsLaws::up_units))]
fn scaled_bits(b: u64) -> u64
    requires { exponent b ≤ 149 }
    ensures { result ≡ up (1000 * units b) (2 ^ 149) }
{
    let fraction = b % 0x80_0000;
    match b % 0x8000_0000 / 0x80_0000 {
        0 => scaled(fraction, 149),
        exponent => scaled(0x80_0000 + fraction, 150 - exponent),
    }
}

// µg per litre, or rule 12. A NaN is outside the range, and minus zero within it.
pub fn concentration_of(x: f32) -> Result<u64, Rule>
    ensures { result ≡ concentration_of x }
{
    if (0.0..=1000.0).contains(&x) {
        return Ok(scaled_bits(u64::from(x.to_bits())));
    }
    Err(Rule::BadConcentration)
}
