//! Whether bytes are the same, eight at a time.
ghost use Rattle.std.specs.Prelude.{◌≡◌, ◌≤◌, ◌↔◌, IsTrue, length};

use crate::vectors::eight;

/// How many bytes are compared at once.
const WORD: usize = 8;

/// Whether bytes are the same. Takes a step for each eight bytes, or for each byte if there are fewer than eight.
pub fn are_same(a: &[u8], b: &[u8]) -> bool
    ensures { IsTrue result ↔ (a.now ≡ b.now) }
{
    if a.len() != b.len() {
        return false;
    }
    if a.len() < WORD {
        return a == b;
    }
    are_words_same(a, b)
}

/// Whether as many bytes are the same, of which there are at least eight. The last eight may overlap those before them.
#[inline(always)]
fn are_words_same(a: &[u8], b: &[u8]) -> bool
    requires long { 8 ≤ length a.now }
    requires same { length a.now ≡ length b.now }
    ensures { IsTrue result ↔ (a.now ≡ b.now) }
{
    let last = a.len() - WORD;
    let mut at = 0;
    while at < last {
        if eight(&a[at..]) != eight(&b[at..]) {
            return false;
        }
        at += WORD;
    }
    eight(&a[last..]) == eight(&b[last..])
}
