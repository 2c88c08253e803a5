//! The words and parentheses of a text, up to its first bad byte, for finding what is around a position.

use crate::positions::{Range, bytes_at};
use pddl_tokens::{Cursor, Token, TokenKind};
use std::alloc::{AllocError, Global};

/// A word or a parenthesis of a text.
#[derive(Clone, Copy)]
pub(crate) struct Piece {
    pub(crate) kind: TokenKind,
    start: u32,
    end: u32,
}

impl Piece {
    /// Where it is.
    pub(crate) fn range(self) -> Range {
        Range {
            start: self.start as usize,
            end: self.end as usize,
        }
    }

    /// Whether it is a `(`.
    pub(crate) fn is_left(self) -> bool {
        matches!(self.kind, TokenKind::Left)
    }

    /// Whether it is a word.
    pub(crate) fn is_word(self) -> bool {
        matches!(self.kind, TokenKind::Word)
    }
}

/// The range of a token.
pub(crate) fn range_of(token: Token<'_>) -> Range {
    Range {
        start: token.span.start as usize,
        end: token.span.end as usize,
    }
}

/// The pieces of a text in order.
pub(crate) struct Pieces<'a> {
    pub(crate) text: &'a [u8],
    pieces: Vec<Piece>,
}

impl Drop for Pieces<'_> {
    fn drop(self) {
        let Self { text: _, pieces: _ } = self;
    }
}

impl<'a> Pieces<'a> {
    /// Cuts a text. Takes 12 bytes of memory for each piece.
    pub(crate) fn new(alloc: Global, text: &'a [u8]) -> Result<Self, AllocError> {
        let mut pieces = Vec::new(alloc);
        if let Ok(mut cursor) = Cursor::new(text) {
            'tokens: while let Ok(Some(token)) = cursor.next() {
                pieces.push(Piece {
                    kind: token.kind,
                    start: token.span.start,
                    end: token.span.end,
                })?;
            }
        }
        Ok(Pieces { text, pieces })
    }

    /// All pieces.
    pub(crate) fn as_slice(&self) -> &[Piece] {
        self.pieces.as_slice()
    }

    /// The piece with a number.
    pub(crate) fn get(&self, number: usize) -> Option<Piece> {
        self.pieces.as_slice().get(number).copied()
    }

    /// The bytes of a piece if it is a word, or else nothing.
    pub(crate) fn word(&self, number: usize) -> &'a [u8] {
        match self.get(number) {
            Some(piece) if piece.is_word() => bytes_at(self.text, piece.range()),
            _ => b"",
        }
    }

    /// Whether the piece with a number is this word, in upper or lower case.
    pub(crate) fn is_word(&self, number: usize, word: &[u8]) -> bool {
        self.word(number).eq_ignore_ascii_case(word)
    }

    /// The number of the piece that begins at an offset, or else of the first after it.
    pub(crate) fn number_at(&self, offset: usize) -> usize {
        let mut number: usize = 0;
        for piece in self.pieces.as_slice() {
            if piece.start as usize >= offset {
                return number;
            }
            number = number.saturating_add(1);
        }
        number
    }

    /// The number of the `(` of the list in which a piece is, if it is in one.
    pub(crate) fn list_around(&self, number: usize) -> Option<usize> {
        let mut open: usize = 0;
        let mut at = number.min(self.pieces.len());
        for _ in 0..number {
            at = at.saturating_sub(1);
            match self.get(at).map(|piece| piece.kind) {
                Some(TokenKind::Left) if open == 0 => return Some(at),
                Some(TokenKind::Left) => open = open.saturating_sub(1),
                Some(TokenKind::Right) => open = open.saturating_add(1),
                _ => {}
            }
        }
        None
    }
}
