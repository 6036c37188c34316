// An answer as one number.
ghost use Rattle.std.specs.Prelude.{◌≡◌};
ghost use Rattle.exports.specs.Codes.{written_code};

use site::Refusal;

#[tactic(auto, using(crate::proofs::CodeLaws::number_range), unfolding(crate::specs::Codes::written_code))]
pub fn written_code(written: Result<usize, Refusal>) -> u64
    ensures { result ≡ written_code written }
{
    // `usize` and `u64` have no `From`, and `try_from` would bring a refusal that cannot come
    match written {
        Ok(n) => n as u64,
        Err(Refusal { rule, at }) => {
            u64::from(rule) * 4_294_967_296 + (at % 4_294_967_296) as u64
        }
    }
}
