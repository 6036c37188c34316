// Bytes that stand in a line as hexadecimal digits.
ghost use Rattle.std.specs.Prelude.{◌≤◌, IfSome};

use arrayvec::ArrayVec;

fn digit_value(b: u8) -> Option<u8>
    ensures { IfSome result (λ d. d ≤ 15) }
{
    match b {
        b'0'..=b'9' => Some(b - b'0'),
        b'A'..=b'F' => Some(b - b'A' + 10),
        _ => None,
    }
}

// The bytes of a line, as many as there is room for; characters that are no digits are skipped.
pub fn decode(line: &[u8]) -> ArrayVec<u8, 2048> {
    let mut bytes = ArrayVec::new();
    let mut high = None;
    for digit in line.iter().filter_map(|b| digit_value(*b)) {
        match high.take() {
            None => high = Some(digit),
            Some(first) => {
                let _ = bytes.try_push(first << 4 | digit);
            }
        }
    }
    bytes
}
