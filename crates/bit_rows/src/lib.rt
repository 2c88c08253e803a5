//! Rows of bits in words of 64: a row that grows, and the bits of a slice of words.
//!
//! ```text
//! let mut row = Row::new(alloc);
//! row.reserve(71)?;                   // two words now
//! row.set(70);
//! row.has(70) && !row.has(1000)       // a bit that was never set is clear
//! ```
//!
//! A [`Row`] takes memory only when room is asked for. The functions over slices take none; [`least_bit`] finds the first set bit of a word
//! in one instruction.
#![tactic(auto)]

mod row;
mod words;

pub use row::Row;
pub use words::{WORD_BITS, clear_bit, empty_row, has_bit, least_bit, set_bit};
