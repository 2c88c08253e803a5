//! Hashes of bytes, eight at a time.
ghost use Rattle.std.specs.Prelude.{◌<◌, length};

use crate::numbers::{few, four};
use crate::vectors::eight;

/// How many bytes are hashed at once.
const WORD: usize = 8;

/// A hash that depends on two numbers. Nobody who does not know them can choose bytes with the same hash.
#[derive(Clone, Copy)]
pub struct KeyedHash {
    /// What it begins with.
    pub start: u64,
    /// What it multiplies with.
    pub by: u64,
}

impl KeyedHash {
    /// The hash of these bytes, which is the same each time. Takes a multiplication for each eight of them.
    pub fn of(self, bytes: &[u8]) -> u64 {
        let start = self.start ^ bytes.len() as u64;
        if bytes.len() < WORD {
            return folded_multiply(start ^ fewer_than_eight(bytes), self.by);
        }
        let last = bytes.len() - WORD;
        let mut hash = start;
        let mut at = 0;
        while at < last {
            hash = folded_multiply(hash ^ eight(&bytes[at..]), self.by);
            at += WORD;
        }
        folded_multiply(hash ^ eight(&bytes[last..]), self.by)
    }
}

/// Fewer than eight bytes as a number.
fn fewer_than_eight(bytes: &[u8]) -> u64
    requires { length bytes.now < 8 }
{
    if bytes.len() < 4 {
        few(bytes)
    } else {
        four(bytes) + four(&bytes[bytes.len() - 4..]) * 4_294_967_296
    }
}

/// The two halves of the 128 bits of a product, joined by an exclusive or.
#[inline(always)]
fn folded_multiply(a: u64, b: u64) -> u64 {
    let product = a as u128 * b as u128;
    (product & 0xFFFF_FFFF_FFFF_FFFF) as u64 ^ (product >> 64) as u64
}
