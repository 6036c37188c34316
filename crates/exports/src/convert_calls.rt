// A file converted to one kind of record.
ghost use Rattle.std.specs.Prelude.{◌≡◌, ◌<◌, take, Ok, IfOk};
ghost use Rattle.listing.specs.FileText.{file_answer, file_held};
ghost use Rattle.convert.specs.Converted.{file_of};
ghost use Rattle.exports.specs.Codes.{code_base, written_code, Decodes, Small};
ghost use Rattle.exports.specs.Target.{converted_to, MovedTo};

use crate::codes::written_code;
use convert::{Target, convert};
use site::{Refusal, SpeciesList};

fn convert_lent(file: &[u8], list: &[u8], target: u8, out: &mut [u8]) -> Result<usize, Refusal>
    ensures answer { result ≡ file_answer file_of (converted_to target list.now file.now) out.old }
    ensures buffer { out.new ≡ file_held file_of (converted_to target list.now file.now) out.old }
    ensures small { Small result }
    ensures same { IfOk result (λ n. MovedTo target list.now file.now (take n out.new)) }
{
    let target = Target::try_from(target)?;
    let list = SpeciesList::checked(list)?;
    convert(file, list, target, out)
}

#[unsafe(no_mangle)]
pub extern "C" fn forest_convert(file: &[u8], list: &[u8], target: u8, out: &mut [u8]) -> u64
    ensures answer { result ≡ written_code (file_answer file_of (converted_to target list.now file.now) out.old) }
    ensures buffer { out.new ≡ file_held file_of (converted_to target list.now file.now) out.old }
    ensures decoded { Decodes (file_answer file_of (converted_to target list.now file.now) out.old) result }
    ensures same { result < code_base → MovedTo target list.now file.now (take result out.new) }
{
    written_code(convert_lent(file, list, target, out))
}
