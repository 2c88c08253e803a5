//! Tokens, their spans in the text, and what can be wrong with a text.

/// A half-open range of byte offsets in a text.
#[derive(Clone, Copy, Debug, PartialEq, Eq)]
pub struct Span {
    /// The offset of the first byte.
    pub start: u32,
    /// The offset after the last byte.
    pub end: u32,
}

/// What a token is.
#[derive(Clone, Copy, PartialEq, Eq)]
pub enum TokenKind {
    /// `(`
    Left,
    /// `)`
    Right,
    /// A longest run of bytes that are neither blanks nor parentheses nor `;`.
    Word,
}

/// A token of a text.
#[derive(Clone, Copy)]
pub struct Token<'a> {
    pub kind: TokenKind,
    /// Where the token is in the text.
    pub span: Span,
    /// Its bytes, as they are in the text.
    pub text: &'a [u8],
}

/// A text has 2^31 bytes or more.
#[derive(Clone, Copy, PartialEq, Eq)]
pub struct TooLong;

/// A byte that may only be in comments.
#[derive(Clone, Copy, PartialEq, Eq)]
pub struct BadByte {
    /// Its offset in the text.
    pub at: u32,
}
