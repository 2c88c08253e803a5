//! The words of PDDL: what kind a word is, whether two words are the same, which number a word writes, and hashes of words.
//!
//! ```text
//! word_kind(b"?x")                    // WordKind::Variable
//! word_kind(b"stack-2")               // WordKind::Name
//! same_folded(b"Stack", b"sTACK")     // true
//! digits(b"042")                      // Some(42)
//! billionths(b"0.5")                  // Some(500_000_000)
//!
//! let a = ShortWord::of(b"truck-12")?;            // None if there are no bytes, or more than 16
//! let b = ShortWord::of(b"truck-13")?;
//! a.is(b)                                         // false
//! are_same(b"drive truck-12 b c", key)            // whether the bytes are the same
//! KeyedHash { start, by }.of(key)                 // a number that only who knows `start` and `by` can foretell
//! ```
//!
//! A word is given by its bytes as they are in the text, in upper or lower case. Nothing here takes memory.
//!
//! The `==` of slices goes byte by byte. A [`ShortWord`] is a word of at most 16 bytes as two numbers, so that two of them are hashed and compared
//! at once, [`are_same`] compares slices of any length eight bytes at a time, and a [`KeyedHash`] hashes them.
//! [`vectors`] has all code of this project that looks at many bytes of a slice at once.
#![tactic(auto)]

ghost use Rattle.std.specs.Prelude.{◌≡◌};
ghost use Rattle.pddl_words.specs.Words.{is_name, is_name_byte};
ghost use Rattle.pddl_words.specs.SpacedWords.{words_of};
ghost use Rattle.pddl_words.specs.Kinds.{kind_of_word, is_marked_name, is_same_word};
ghost use Rattle.std.specs.List.{list_all};

mod decimals;
mod hashes;
mod numbers;
mod row_words;
mod same_bytes;
mod short_words;
pub mod vectors;

pub use decimals::{billionths, digits};
pub use hashes::KeyedHash;
pub use row_words::{RowWords, first_word_len};
pub use same_bytes::are_same;
pub use short_words::ShortWord;

/// What a word may stand for, judged by its spelling alone.
#[derive(Clone, Copy, PartialEq, Eq)]
pub enum WordKind {
    /// A letter, then letters, digits, `-` and `_`.
    Name,
    /// `?` and a name.
    Variable,
    /// `:` and a name.
    Keyword,
    /// The word `-`, which is written before a type.
    Dash,
    /// Any other word, such as a number or `=`.
    Other,
}

/// The kind of a word, in upper or lower case. Takes one pass over its bytes.
///
/// Names are those of PDDL 2.1 (Fox and Long 2003, appendix A).
#[tactic(auto, unfolding(crate::specs::Kinds::kind_of_word))]
pub fn word_kind(word: &[u8]) -> WordKind
    ensures { result ≡ kind_of_word word.now }
{
    if is_name(word) {
        WordKind::Name
    } else if is_marked_name(b'?', word) {
        WordKind::Variable
    } else if is_marked_name(b':', word) {
        WordKind::Keyword
    } else if word == b"-".as_slice() {
        WordKind::Dash
    } else {
        WordKind::Other
    }
}

/// Whether two words are the same, ignoring case, as in all of PDDL.
pub fn same_folded(a: &[u8], b: &[u8]) -> bool
    ensures { result ≡ is_same_word a.now b.now }
{
    a.eq_ignore_ascii_case(b)
}

/// Whether a row of bytes is names, with a single space between each two. Takes one pass over the bytes.
pub fn are_names(row: &[u8]) -> bool
    ensures { result ≡ list_all is_name (words_of row.now) }
{
    let mut begins = true;
    for b in row {
        if begins {
            if !b.is_ascii_alphabetic() {
                return false;
            }
            begins = false;
        } else if *b == b' ' {
            begins = true;
        } else if !is_name_byte(*b) {
            return false;
        }
    }
    !begins
}

/// Whether the bytes are a mark and then a name.
fn is_marked_name(mark: u8, bytes: &[u8]) -> bool
    ensures { result ≡ is_marked_name mark bytes.now }
{
    match bytes.split_first() {
        Some((first, name)) if *first == mark => is_name(name),
        _ => false,
    }
}

#[tactic(auto, unfolding(crate::specs::Words::is_name))]
fn is_name(bytes: &[u8]) -> bool
    ensures { result ≡ is_name bytes.now }
{
    match bytes.split_first() {
        Some((first, others)) if first.is_ascii_alphabetic() => are_name_bytes(others),
        _ => false,
    }
}

fn are_name_bytes(bytes: &[u8]) -> bool
    ensures { result ≡ list_all is_name_byte bytes.now }
{
    bytes.iter().all(|b| is_name_byte(*b))
}

fn is_name_byte(b: u8) -> bool
    ensures { result ≡ is_name_byte b }
{
    NAME_BYTES[b as usize]
}

// Yes and no by one letter each, for the table.
const Y: bool = true;

const N: bool = false;

/// Which bytes may follow the first letter of a name, sixteen bytes to a row.
#[rattlefmt::skip]
static NAME_BYTES: [bool; 256] = [
    N, N, N, N, N, N, N, N, N, N, N, N, N, N, N, N,
    N, N, N, N, N, N, N, N, N, N, N, N, N, N, N, N,
    N, N, N, N, N, N, N, N, N, N, N, N, N, Y, N, N,
    Y, Y, Y, Y, Y, Y, Y, Y, Y, Y, N, N, N, N, N, N,
    N, Y, Y, Y, Y, Y, Y, Y, Y, Y, Y, Y, Y, Y, Y, Y,
    Y, Y, Y, Y, Y, Y, Y, Y, Y, Y, Y, N, N, N, N, Y,
    N, Y, Y, Y, Y, Y, Y, Y, Y, Y, Y, Y, Y, Y, Y, Y,
    Y, Y, Y, Y, Y, Y, Y, Y, Y, Y, Y, N, N, N, N, N,
    N, N, N, N, N, N, N, N, N, N, N, N, N, N, N, N,
    N, N, N, N, N, N, N, N, N, N, N, N, N, N, N, N,
    N, N, N, N, N, N, N, N, N, N, N, N, N, N, N, N,
    N, N, N, N, N, N, N, N, N, N, N, N, N, N, N, N,
    N, N, N, N, N, N, N, N, N, N, N, N, N, N, N, N,
    N, N, N, N, N, N, N, N, N, N, N, N, N, N, N, N,
    N, N, N, N, N, N, N, N, N, N, N, N, N, N, N, N,
    N, N, N, N, N, N, N, N, N, N, N, N, N, N, N, N,
];
