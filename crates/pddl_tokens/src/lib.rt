//! The tokens of PDDL texts: words and parentheses, each as a slice of the text with its span of byte offsets.
//!
//! ```text
//! let mut cursor = Cursor::new(b"(lit ?x) ; on")?;
//! cursor.next()                   // Ok(Some(token)): a TokenKind::Left, with the span 0 to 1
//! cursor.next()                   // Ok(Some(token)): a TokenKind::Word, the bytes `lit`, with the span 1 to 4
//! word_kind(b"?x")                // WordKind::Variable
//! line_of(b"(lit\n?x)", 5)        // 2: the line of the byte at offset 5
//! ```
//!
//! A [`Cursor`] walks over the text once and takes no memory. [`Cursor::paren_range`] gives a list of plain words as one run of bytes, for callers
//! that know these bytes already and need not read them again, and [`ParenRange::are_names`] says whether these words are names. [`word_kind`]
//! says what a word may stand for, and [`line_of`] finds the line of an offset.
#![tactic(auto)]

mod bytes;
pub mod laws;
mod lines;
mod scan;
mod spans;

pub use lines::line_of;
pub use pddl_words::{WordKind, same_folded, word_kind};
pub use scan::{Cursor, NextWord, ParenRange};
pub use spans::{BadByte, Span, Token, TokenKind, TooLong};
