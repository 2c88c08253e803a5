//! The cursor over the tokens of a text.

ghost use Rattle.std.specs.Prelude.{◌≡◌, ℕ, ◌+◌, ◌<◌, ◌≤◌, ◌^◌, ◌∷◌, ◌++◌, [], true, false, length, drop, slice_index, IfOk, IfErr, IfSome, IsTrue};
ghost use Rattle.std.specs.List.{list_all, prefix_len};
ghost use Rattle.pddl_words.specs.Pairs.{goes_on};
ghost use Rattle.pddl_words.specs.SpacedWords.{words_of};
ghost use Rattle.pddl_words.specs.Words.{is_name};
ghost use Rattle.pddl_tokens.specs.Bytes.{is_word_byte};
ghost use Rattle.pddl_tokens.specs.Cut.{is_comment_byte};
ghost use Rattle.pddl_tokens.specs.Lexeme.{IsLexeme, pieces_at};
ghost use Rattle.pddl_tokens.specs.ParenRanges.{BeginsWithList};

use crate::bytes::{ByteClass, class_of, is_blank, is_word_byte};
use crate::spans::{BadByte, Span, Token, TokenKind, TooLong};
use memchr::memchr;
use pddl_words::are_names;
use pddl_words::vectors::names_len;
use std::marker::Model;

/// How many bytes of a list are looked at together.
const LANES: usize = 32;

/// A walk over the tokens of a text, one pass over its bytes. A contract sees it as the pieces that are still to come.
#[derive(Drop)]
pub struct Cursor<'a> {
    text: &'a [u8],
    at: usize,
}

impl<'a> Model for Cursor<'a> {
    ghost use Rattle.std.specs.Prelude.{List, ◌≤◌, ◌<◌, ◌^◌, length, drop};
    ghost use Rattle.pddl_tokens.specs.Tokens.{Piece, pieces_from, between};

    ghost Value = { List Piece };

    ghost view = { λ c. pieces_from between c.at (drop c.at c.text.now) };

    ghost invariant = { λ c. (c.at ≤ length c.text.now) × (length c.text.now < 2 ^ 31) };
}

impl<'a> Cursor<'a> {
    ghost use Rattle.pddl_tokens.specs.Tokens.{pieces, Takes};

    /// A cursor at the start of a text.
    #[tactic(auto, unfolding(crate::specs::Tokens::pieces))]
    pub fn new(text: &'a [u8]) -> Result<Self, TooLong>
        ensures ok { IfOk result (λ c. (length text.now < 2 ^ 31) × (c ≡ pieces text.now)) }
        ensures err { IfErr result (λ e. 2 ^ 31 ≤ length text.now) }
    {
        if text.len() < 1 << 31 {
            Ok(Cursor { text, at: 0 })
        } else {
            Err(TooLong)
        }
    }

    /// A second cursor at the same offset.
    pub fn fork(&self) -> Self
        ensures { result ≡ self.now }
    {
        Cursor {
            text: self.text,
            at: self.at,
        }
    }

    /// The next token, or `None` if none follows.
    ///
    /// At a bad byte, each further call gives the same fault. At the end, each further call gives `None`.
    pub fn next(&mut self) -> Result<Option<Token<'a>>, BadByte>
        ensures { Takes result self.old self.new }
    {
        match first_from(self.text, self.at) {
            Lexeme::End => Ok(None),
            Lexeme::Bad { at } => Err(BadByte { at: at as u32 }),
            Lexeme::Token { kind, start, end } => {
                self.at = end;
                Ok(Some(Token {
                    kind,
                    span: Span {
                        start: start as u32,
                        end: end as u32,
                    },
                    text: &self.text[start..end],
                }))
            }
        }
    }
}

/// A `(`, and what is between it and the first `)` after it.
#[derive(Drop)]
pub struct ParenRange<'a> {
    /// The offset of the `(`.
    pub start: u32,
    /// The bytes between the two, which were not read yet.
    pub key: &'a [u8],
    /// The text from the `(` on.
    list: &'a [u8],
    /// A cursor after the `)`.
    pub rest: Cursor<'a>,
    ghost listed: { BeginsWithList list.now key.now },
}

impl<'a> ParenRange<'a> {
    /// Whether the key is names, with a single space between each two. Takes one pass over the key at most.
    pub fn are_names(&self) -> bool
        ensures { result ≡ list_all is_name (words_of self.now.key.now) }
    {
        are_names_in(self.list, self.key)
    }
}

/// Whether the key of a list is names, with a single space between each two.
///
/// A key of at most 31 bytes is seen at once, if the text goes on far enough, and a longer one 32 bytes at a time.
#[inline(always)]
fn are_names_in(list: &[u8], key: &[u8]) -> bool
    requires { BeginsWithList list.now key.now }
    ensures { result ≡ list_all is_name (words_of key.now) }
{
    let size = key.len();
    if size >= LANES {
        return are_many_names(list, key);
    }
    if size == 0 || list.len() <= LANES {
        return are_names(key);
    }
    names_len(list) == size && list[size] != b' '
}

/// Whether the key of a list is names, as above, if it has at least 32 bytes. The last 32 are looked at together, also those that were seen before.
fn are_many_names(list: &[u8], key: &[u8]) -> bool
    requires begins { BeginsWithList list.now key.now }
    requires many { 32 ≤ length key.now }
    ensures { result ≡ list_all is_name (words_of key.now) }
{
    let size = key.len();
    let last = size - LANES;
    let mut at = 0;
    'vectors: while at < last {
        if !all_go_on(list, at) {
            return false;
        }
        at += LANES;
    }
    all_go_on(list, last) && list[size] != b' '
}

/// Whether each of the 32 bytes behind the one at `at` goes on as names.
#[inline(always)]
fn all_go_on(list: &[u8], at: usize) -> bool
    requires { at + 32 < length list.now }
    ensures all { result ≡ true → (k : ℕ) → at ≤ k → k < at + 32 → goes_on (slice_index list.now k) (slice_index list.now (k + 1)) ≡ true }
    ensures other { result ≡ false → (k : ℕ) × (at ≤ k) × (k < at + 32) × (goes_on (slice_index list.now k) (slice_index list.now (k + 1)) ≡ false) }
{
    names_len(&list[at..]) >= LANES
}

/// A word, and a cursor after it.
#[derive(Drop)]
pub struct NextWord<'a> {
    /// Its bytes.
    pub text: &'a [u8],
    /// A cursor after its last byte.
    pub rest: Cursor<'a>,
}

impl<'a> Cursor<'a> {
    ghost use Rattle.pddl_tokens.specs.ParenRanges.{IsPlain, range_pieces};
    ghost use Rattle.pddl_tokens.specs.Tokens.{token};
    ghost use Rattle.pddl_tokens.specs.declared.spans.Span.{Span};
    ghost use Rattle.pddl_tokens.specs.declared.spans.TokenKind.TheVariants.{Word};

    /// Whether only blanks follow. If not, no token may follow all the same: comments are not looked into.
    pub fn is_over(&self) -> bool
        ensures { IsTrue result → self.now ≡ [] }
    {
        skip_blanks(self.text, self.at) == self.text.len()
    }

    /// The next token, if it is a word and only blanks are before it. `None` says nothing about what follows.
    #[inline(always)]
    pub fn word(&self) -> Option<NextWord<'a>>
        ensures { IfSome result (λ word. (span : Span) × (self.now ≡ token Word span word.text.now ∷ word.rest)) }
    {
        let text = self.text;
        let start = skip_blanks(text, self.at);
        if start == text.len() {
            return None;
        }
        if !is_word_byte(text[start]) {
            return None;
        }
        let end = start + word_len(text, start);
        Some(NextWord {
            text: &text[start..end],
            rest: Cursor { text, at: end },
        })
    }

    /// The bytes up to the next `)`, if a `(` follows.
    ///
    /// They are the next tokens if the key is plain: only words with single spaces between them. For any other key that need not be so, since
    /// a comment may hide the `)`, or another `(` or a bad byte may be before it. `None` says nothing about what follows.
    pub fn paren_range(&self) -> Option<ParenRange<'a>>
        ensures { IfSome result (λ range. IsPlain range.key.now → self.now ≡ range_pieces range.start range.key.now ++ range.rest) }
    {
        let text = self.text;
        let open = skip_blanks(text, self.at);
        if open == text.len() {
            return None;
        }
        if text[open] != b'(' {
            return None;
        }
        let inside = &text[open + 1..];
        let size = memchr(b')', inside)?;
        Some(ParenRange {
            start: open as u32,
            key: &inside[..size],
            list: &text[open..],
            rest: Cursor {
                text,
                at: open + 1 + size + 1,
            },
        })
    }
}

/// The offset of the first byte from `at` on that is no blank, or the end.
fn skip_blanks(text: &[u8], mut at: usize) -> usize
    requires { at ≤ length text.now }
    ensures same { pieces_at text.now result ≡ pieces_at text.now at }
    ensures within { result ≤ length text.now }
{
    'blanks: while at < text.len() {
        if !is_blank(text[at]) {
            return at;
        }
        at += 1;
    }
    at
}

/// What comes first in the rest of a text.
#[derive(Clone, Copy)]
enum Lexeme {
    End,
    Bad {
        at: usize,
    },
    Token {
        kind: TokenKind,
        start: usize,
        end: usize,
    },
}

/// What comes first in a text from `at` on, blanks and comments aside.
fn first_from(text: &[u8], mut at: usize) -> Lexeme
    requires { at ≤ length text.now }
    ensures { IsLexeme result text.now at }
{
    'skipping: loop {
        if at == text.len() {
            return Lexeme::End;
        }
        match class_of(text[at]) {
            ByteClass::LineEnd => at += 1,
            ByteClass::Blank => at += 1,
            ByteClass::Semicolon => at += comment_len(text, at),
            ByteClass::Left => {
                return Lexeme::Token {
                    kind: TokenKind::Left,
                    start: at,
                    end: at + 1,
                };
            }
            ByteClass::Right => {
                return Lexeme::Token {
                    kind: TokenKind::Right,
                    start: at,
                    end: at + 1,
                };
            }
            ByteClass::WordByte => {
                let end = at + word_len(text, at);
                return Lexeme::Token {
                    kind: TokenKind::Word,
                    start: at,
                    end,
                };
            }
            ByteClass::Bad => return Lexeme::Bad { at },
        }
    }
}

/// How many bytes from `start` on belong to words, up to the first that does not.
#[tactic(auto, using(crate::proofs::Lemmas::rest_whole))]
fn word_len(text: &[u8], start: usize) -> usize
    requires { start ≤ length text.now }
    ensures run { result ≡ prefix_len is_word_byte (drop start text.now) }
    ensures within { start + result ≤ length text.now }
{
    word_run(&text[start..])
}

/// How many bytes there are from `start` to the next LF, or to the end.
#[tactic(auto, using(crate::proofs::Lemmas::rest_whole))]
fn comment_len(text: &[u8], start: usize) -> usize
    requires { start ≤ length text.now }
    ensures run { result ≡ prefix_len is_comment_byte (drop start text.now) }
    ensures within { start + result ≤ length text.now }
{
    comment_run(&text[start..])
}

/// How many bytes at the front belong to words.
fn word_run(bytes: &[u8]) -> usize
    ensures run { result ≡ prefix_len is_word_byte bytes.now }
    ensures within { result ≤ length bytes.now }
{
    bytes.iter().take_while(|b| is_word_byte(**b)).count()
}

/// How many bytes there are before the first LF.
fn comment_run(bytes: &[u8]) -> usize
    ensures run { result ≡ prefix_len is_comment_byte bytes.now }
    ensures within { result ≤ length bytes.now }
{
    match memchr(b'\n', bytes) {
        Some(end) => end,
        None => bytes.len(),
    }
}
