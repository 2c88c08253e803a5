//! Numbers as plans and domains write them: digits, and perhaps a point and more digits.

ghost use Rattle.std.specs.Prelude.{◌≡◌, ◌<◌, ◌≤◌, ◌^◌, length, IfSome};
ghost use Rattle.pddl_words.specs.DecimalReading.{digits_of, is_point, billionths_of};
ghost use Rattle.std.specs.List.{position};

/// How many digits there may be on either side of the point.
const MOST_DIGITS: usize = 9;

/// How many billionths are one.
const BILLION: u64 = 1_000_000_000;

/// The number that the bytes write, in billionths: 1 to 9 digits, and perhaps a point and 1 to 9 more digits. `None` for any other bytes.
/// Takes no memory.
pub fn billionths(number: &[u8]) -> Option<u64>
    ensures value { result ≡ billionths_of number.now }
    ensures small { IfSome result (λ value. value < 10 ^ 18) }
{
    match point(number) {
        Some(at) => {
            let whole = digits(&number[..at])?;
            let behind = &number[at + 1..];
            let part = digits(behind)?;
            Some(whole * BILLION + part * 10_u64.pow((MOST_DIGITS - behind.len()) as u32))
        }
        None => {
            let whole = digits(number)?;
            Some(whole * BILLION)
        }
    }
}

/// The index of the first point.
fn point(number: &[u8]) -> Option<usize>
    ensures value { result ≡ position is_point number.now }
    ensures within { IfSome result (λ at. at < length number.now) }
{
    number.iter().position(|b| *b == b'.')
}

/// The number that 1 to 9 digits write; `None` for any other bytes. Takes no memory.
pub fn digits(bytes: &[u8]) -> Option<u64>
    ensures value { result ≡ digits_of bytes.now }
    ensures small { IfSome result (λ value. (value < 10 ^ length bytes.now) × (length bytes.now ≤ 9)) }
{
    if bytes.is_empty() {
        return None;
    }
    if bytes.len() > MOST_DIGITS {
        return None;
    }
    let mut value = 0;
    for b in bytes {
        if !b.is_ascii_digit() {
            return None;
        }
        value = value * 10 + u64::from(*b - b'0');
    }
    Some(value)
}
