//! A row of bits that grows.
//!
//! A bit that was never set is clear, even if there is no room for it. Room is made ahead; setting and clearing take no memory.
ghost use Rattle.std.specs.Prelude.{◌≡◌, ◌≢◌, ◌+◌, ◌*◌, ◌/◌, ◌<◌, ◌≤◌, ℕ, length, ltb, nat_eq, true, false, OnOk, IfOk};
ghost use Rattle.std.specs.Int.{bit_at};
ghost use Rattle.bit_rows.specs.Rows.{row_has};

use crate::words::{WORD_BITS, clear_bit, has_bit, set_bit};
use std::alloc::{AllocError, Global};
use std::marker::Model;

/// A set of numbers, each kept as one bit. Contracts see the words.
#[derive(Drop)]
pub struct Row {
    words: Vec<u64>,
}

impl Model for Row {
    ghost use Rattle.std.specs.Prelude.{List, ℕ};

    ghost Value = { List ℕ };

    ghost view = { λ row. row.words.items };
}

impl Row {
    /// The row with no bit set. Takes no memory.
    pub fn new(alloc: Global) -> Row
        ensures { (k : ℕ) → row_has result k ≡ false }
    {
        Row {
            words: Vec::new(alloc),
        }
    }

    /// A row in which the first `count` bits are set and no others, with room for them.
    pub fn with_first(alloc: Global, count: usize) -> Result<Row, AllocError>
        ensures first { IfOk result (λ row. (k : ℕ) → row_has row k ≡ ltb k count) }
        ensures room { IfOk result (λ row. count ≤ 64 * length row) }
    {
        let whole = count / WORD_BITS;
        let mut words = Vec::new(alloc);
        words.resize(whole + 1, u64::MAX)?;
        words[whole] = last_word(count);
        Ok(Row { words })
    }

    /// Makes room for `count` bits. Takes memory if the row has to grow, and changes no bit.
    pub fn reserve(&mut self, count: usize) -> Result<(), AllocError>
        ensures room { OnOk result (count ≤ 64 * length self.new) }
        ensures longer { length self.old ≤ length self.new }
        ensures same { (k : ℕ) → row_has self.new k ≡ row_has self.old k }
    {
        let index = count / WORD_BITS;
        if index >= self.words.len() {
            self.words.resize(index + 1, 0)?;
        }
        Ok(())
    }

    /// Sets the first `count` bits, for which there is room, and clears all others. The words are filled in bulk.
    pub fn reset_to_first(&mut self, count: usize)
        requires { count ≤ 64 * length self.old }
        ensures first { (k : ℕ) → row_has self.new k ≡ ltb k count }
        ensures long { length self.new ≡ length self.old }
    {
        set_first(&mut self.words, count);
    }

    /// Whether a bit is set.
    pub fn has(&self, bit: usize) -> bool
        ensures { result ≡ row_has self.now bit }
    {
        bit / WORD_BITS < self.words.len() && has_bit(&self.words, bit)
    }

    /// Sets a bit for which there is room.
    pub fn set(&mut self, bit: usize)
        requires { bit < 64 * length self.old }
        ensures set { row_has self.new bit ≡ true }
        ensures others { (k : ℕ) → k ≢ bit → row_has self.new k ≡ row_has self.old k }
        ensures long { length self.new ≡ length self.old }
    {
        set_bit(&mut self.words, bit);
    }

    /// Clears a bit.
    pub fn clear(&mut self, bit: usize)
        ensures cleared { row_has self.new bit ≡ false }
        ensures others { (k : ℕ) → k ≢ bit → row_has self.new k ≡ row_has self.old k }
        ensures long { length self.new ≡ length self.old }
    {
        if bit / WORD_BITS < self.words.len() {
            clear_bit(&mut self.words, bit);
        }
    }
}

/// Sets the first `count` bits of the words, which have room for them, and clears all others.
fn set_first(words: &mut [u64], count: usize)
    requires { count ≤ 64 * length words.old }
    ensures first { (k : ℕ) → row_has words.new k ≡ ltb k count }
    ensures long { length words.new ≡ length words.old }
{
    let (full, rest) = words.split_at_mut(count / WORD_BITS);
    full.fill(u64::MAX);
    rest.fill(0);
    if !rest.is_empty() {
        rest[0] = last_word(count);
    }
}

/// The word in which the set bits end, in a row in which the first `count` bits are set and no others.
fn last_word(count: usize) -> u64
    ensures { (bit : ℕ) → bit < 64 → nat_eq (bit_at result bit) 1 ≡ ltb (count / 64 * 64 + bit) count }
{
    (1 << (count % WORD_BITS)) - 1
}
