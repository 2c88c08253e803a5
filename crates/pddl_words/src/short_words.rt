//! Words of at most 16 bytes as two numbers.
ghost use Rattle.std.specs.Prelude.{◌≡◌, ◌≢◌, ◌≤◌, ◌<◌, ◌↔◌, ◌⊎◌, IfSome, IsNone, IsTrue, length};
ghost use Rattle.pddl_words.specs.ShortWords.{IsWord, AreEnds};

use crate::numbers::{few, four};
use crate::vectors::eight;

/// How many bytes a short word has at most.
const MOST_BYTES: usize = 16;

/// A word of 1 to 16 bytes, or none.
#[derive(Clone, Copy)]
pub struct ShortWord {
    /// The first bytes as a number: eight, or four if there are fewer than eight, or all if there are fewer than four.
    pub front: u64,
    /// As many bytes at the end.
    pub back: u64,
    /// How many bytes the word has. It is 0 if there is none.
    pub len: u32,
}

impl ShortWord {
    /// No word.
    pub fn none() -> ShortWord
        ensures { result.len ≡ 0 }
    {
        ShortWord {
            front: 0,
            back: 0,
            len: 0,
        }
    }

    /// The word of these bytes, unless there are none, or more than 16. Takes at most four reads of four bytes.
    #[inline]
    pub fn of(word: &[u8]) -> Option<ShortWord>
        ensures word { IfSome result (λ short. IsWord short word.now) }
        ensures some { IfSome result (λ short. short.len ≢ 0) }
        ensures none { IsNone result ↔ ((length word.now ≡ 0) ⊎ (16 < length word.now)) }
    {
        let len = word.len();
        if len == 0 || len > MOST_BYTES {
            return None;
        }
        let (front, back) = ends(word);
        Some(ShortWord {
            front,
            back,
            len: len as u32,
        })
    }

    /// Whether it is a word.
    #[inline]
    pub fn is_some(self) -> bool
        ensures { IsTrue result ↔ (self.len ≢ 0) }
    {
        self.len != 0
    }

    /// Whether two are the same.
    #[inline]
    pub fn is(self, other: ShortWord) -> bool
        ensures { IsTrue result ↔ (self ≡ other) }
    {
        self.front == other.front && self.back == other.back && self.len == other.len
    }

    /// A hash, which is no secret. Its high bits are the best.
    #[inline]
    pub fn hash(self) -> u64 {
        let front = self.front.wrapping_mul(0x9E37_79B9_7F4A_7C15);
        let back = self.back.rotate_left(32) ^ u64::from(self.len);
        let both = front ^ back.wrapping_mul(0xD6E8_FEB8_6659_FD93);
        (both ^ (both >> 32)).wrapping_mul(0x9E37_79B9_7F4A_7C15)
    }
}

/// The first and the last bytes of a word, which cover it, as numbers.
#[inline]
fn ends(word: &[u8]) -> (u64, u64)
    requires { length word.now ≤ 16 }
    ensures { AreEnds result.0 result.1 word.now }
{
    let len = word.len();
    if len >= 8 {
        (eight(word), eight(&word[len - 8..]))
    } else if len >= 4 {
        (four(word), four(&word[len - 4..]))
    } else {
        let all = few(word);
        (all, all)
    }
}
