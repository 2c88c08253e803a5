//! Bytes as the digits of a number.
ghost use Rattle.std.specs.Prelude.{◌≡◌, ◌≤◌, ◌<◌, ◌^◌, length, take};
ghost use Rattle.pddl_words.specs.JoinedBytes.{joined};

/// The number whose digits to the base 256 are the first four bytes, the lowest first.
#[inline(always)]
pub(crate) fn four(bytes: &[u8]) -> u64
    requires { 4 ≤ length bytes.now }
    ensures number { result ≡ joined (take 4 bytes.now) }
    ensures small { result < 2 ^ 32 }
{
    u64::from(bytes[0])
        + u64::from(bytes[1]) * 256
        + u64::from(bytes[2]) * 65_536
        + u64::from(bytes[3]) * 16_777_216
}

/// The number whose digits to the base 256 are fewer than four bytes, the lowest first.
#[inline(always)]
pub(crate) fn few(bytes: &[u8]) -> u64
    requires { length bytes.now < 4 }
    ensures { result ≡ joined bytes.now }
{
    match bytes {
        [a] => u64::from(*a),
        [a, b] => u64::from(*a) + u64::from(*b) * 256,
        [a, b, c] => u64::from(*a) + u64::from(*b) * 256 + u64::from(*c) * 65_536,
        _ => 0,
    }
}
