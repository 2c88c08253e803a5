//! The bits of a slice of 64-bit words.
ghost use Rattle.std.specs.Prelude.{◌≡◌, ◌≢◌, ◌<◌, ◌≤◌, ◌*◌, ◌/◌, ◌^◌, ℕ, length, slice_index, true, false, nat_eq, IfOk};
ghost use Rattle.std.specs.Int.{bit_at};
ghost use Rattle.bit_rows.specs.Rows.{row_has, ChangesBit};

use std::alloc::{AllocError, Global};

/// How many bits a word holds.
pub const WORD_BITS: usize = 64;

/// Words that are 0, with room for at least `bits` bits.
pub fn empty_row(alloc: Global, bits: usize) -> Result<Vec<u64>, AllocError>
    requires { bits < 2 ^ 32 }
    ensures room { IfOk result (λ words. bits ≤ 64 * length words.items) }
    ensures empty { IfOk result (λ words. (j : ℕ) → slice_index words.items j ≡ 0) }
{
    let mut words = Vec::new(alloc);
    words.resize(bits.div_ceil(WORD_BITS), 0)?;
    Ok(words)
}

/// Whether a bit is set.
pub fn has_bit(words: &[u64], bit: usize) -> bool
    requires { bit / 64 < length words.now }
    ensures { result ≡ row_has words.now bit }
{
    (words[bit / WORD_BITS] >> (bit % WORD_BITS)) & 1 == 1
}

/// Sets a bit.
pub fn set_bit(words: &mut [u64], bit: usize)
    requires { bit / 64 < length words.old }
    ensures changed { ChangesBit words.old words.new bit true }
    ensures word { 0 < slice_index words.new (bit / 64) }
{
    let word = words[bit / WORD_BITS];
    words[bit / WORD_BITS] = word_with(word, bit % WORD_BITS);
}

/// Clears a bit. Returns whether its word is 0 then.
pub fn clear_bit(words: &mut [u64], bit: usize) -> bool
    requires { bit / 64 < length words.old }
    ensures changed { ChangesBit words.old words.new bit false }
    ensures word { slice_index words.new (bit / 64) ≤ slice_index words.old (bit / 64) }
    ensures empty { result ≡ nat_eq (slice_index words.new (bit / 64)) 0 }
{
    let word = word_without(words[bit / WORD_BITS], bit % WORD_BITS);
    words[bit / WORD_BITS] = word;
    word == 0
}

/// The least bit that is set in the word with this index, by its number in the row.
pub fn least_bit(words: &[u64], index: usize) -> usize
    requires used { 0 < slice_index words.now index }
    requires few { index < 2 ^ 32 }
    ensures set { row_has words.now result ≡ true }
    ensures index { result / 64 ≡ index }
    ensures least { (k : ℕ) → k / 64 ≡ index → k < result → row_has words.now k ≡ false }
{
    index * WORD_BITS + least_in(words[index])
}

fn least_in(word: u64) -> usize
    requires { 0 < word }
    ensures within { result < 64 }
    ensures set { bit_at word result ≡ 1 }
    ensures least { (k : ℕ) → k < result → bit_at word k ≡ 0 }
{
    word.trailing_zeros() as usize
}

fn word_with(word: u64, bit: usize) -> u64
    requires { bit < 64 }
    ensures set { bit_at result bit ≡ 1 }
    ensures others { (k : ℕ) → k ≢ bit → bit_at result k ≡ bit_at word k }
{
    word | (1 << bit)
}

fn word_without(word: u64, bit: usize) -> u64
    requires { bit < 64 }
    ensures cleared { bit_at result bit ≡ 0 }
    ensures others { (k : ℕ) → k < 64 → k ≢ bit → bit_at result k ≡ bit_at word k }
    ensures no_more { result ≤ word }
{
    word & !(1 << bit)
}
