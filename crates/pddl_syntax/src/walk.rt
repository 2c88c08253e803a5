//! A walk over the trees of a text that passed the first layer: word by word, into each list and out of it.
//!
//! The walk builds no tree. Contracts see it as what is left of each open list, so that a reader's contract can speak of the
//! trees that it reads.

ghost use Rattle.std.specs.Prelude.{◌≡◌, ◌<◌, ◌^◌, IfSome, IsSome, IsTrue, None};
ghost use Rattle.pddl_words.specs.Words.{is_name};
ghost use Rattle.pddl_tokens.specs.ParenRanges.{IsPlain};
ghost use Rattle.pddl_tokens.specs.Tokens.{pieces};
ghost use Rattle.pddl_syntax.specs.Trees.{begins_with_list, text_fault};
ghost use Rattle.pddl_syntax.specs.Levels.{here, levels};
ghost use Rattle.pddl_syntax.specs.Sizes.{ahead};
ghost use Rattle.pddl_syntax.specs.Rows.{ComesNext, PassesRow};

use pddl_tokens::{Cursor, ParenRange, Span, TokenKind};

/// A word of a text with its span.
#[derive(Clone, Copy)]
pub struct Word<'a> {
    pub span: Span,
    pub text: &'a [u8],
}

impl<'a> Default for Word<'a> {
    fn default() -> Self {
        Word {
            span: Span { start: 0, end: 0 },
            text: &[],
        }
    }
}

/// A word that is a name.
#[derive(Clone, Copy)]
pub struct NameWord<'a> {
    pub span: Span,
    pub text: &'a [u8],
    ghost named: { IsTrue (is_name text.now) },
}

/// The name `object`, when no word of the text spells it.
#[tactic(auto, unfolding(pddl_words::specs::Words::is_name))]
impl<'a> Default for NameWord<'a> {
    fn default() -> Self {
        NameWord {
            span: Span { start: 0, end: 0 },
            text: b"object",
        }
    }
}

impl<'a> NameWord<'a> {
    /// The word, which is a name.
    pub fn new(word: Word<'a>) -> Self
        requires { IsTrue (is_name word.text.now) }
        ensures { result.text.now ≡ word.entry.text.now }
    {
        NameWord {
            span: word.span,
            text: word.text,
        }
    }
}

/// What a walk meets next.
#[derive(Clone, Copy)]
pub(crate) enum Item<'a> {
    /// A word.
    Text(Word<'a>),
    /// The `(` of a list, which the walk enters.
    Open(Span),
    /// The `)` of the list that the walk leaves, or an empty span at the text's end.
    Close(Span),
}

/// A walk over a text, and where it is.
#[derive(Drop)]
pub(crate) struct Walk<'a> {
    pub(crate) cursor: Cursor<'a>,
    end: u32,
    ghost balanced: { IsSome (levels cursor) },
    ghost short: { ahead (here cursor) < 2 ^ 31 },
}

impl<'a> Walk<'a> {
    ghost use Rattle.pddl_syntax.specs.Walking.{Steps};

    /// The walk at the start of a text that passed the first layer.
    #[tactic(auto, using(crate::proofs::Balanced::balanced_steps, crate::proofs::Ahead::short_at_start))]
    pub(crate) fn new(text: &'a [u8]) -> Self
        requires { text_fault text.now ≡ None }
        ensures { result.cursor ≡ pieces text.now }
    {
        let Ok(cursor) = Cursor::new(text) else {
            unreachable!()
        };
        Walk {
            cursor,
            end: text.len() as u32,
        }
    }

    /// A second walk, at the same token.
    pub(crate) fn fork(&self) -> Self
        ensures { result.cursor ≡ self.now.cursor }
    {
        Walk {
            cursor: self.cursor.fork(),
            end: self.end,
        }
    }

    /// Whether a list follows directly.
    #[tactic(auto, using(crate::proofs::LevelLemmas::list_steps))]
    pub(crate) fn begins_with_list(&self) -> bool
        ensures { result ≡ begins_with_list (here self.now.cursor).top }
    {
        let mut ahead = self.fork();
        match ahead.next() {
            Item::Open(_) => true,
            Item::Text(_) => false,
            Item::Close(_) => false,
        }
    }

    /// The list that may follow, as the bytes between its parentheses.
    ///
    /// These bytes were not read yet. They are the next list only if they are known to be words with a single space between each two.
    pub(crate) fn next_range(&self) -> Option<ParenRange<'a>>
        ensures { IfSome result (λ range. ComesNext self.now.cursor range) }
    {
        self.cursor.paren_range()
    }

    /// Steps over the list that follows, which the key of its range must spell.
    pub(crate) fn pass(&mut self, range: ParenRange<'a>)
        requires next { ComesNext self.old.cursor range }
        requires spelled { IsPlain range.key.now }
        ensures { PassesRow range.entry.key.now (here self.old.cursor) (here self.new.cursor) }
    {
        self.cursor = range.rest;
    }

    /// Steps over the next word, into the next list, or out of the list that the walk is in.
    #[tactic(auto, using(crate::proofs::LevelLemmas::walk_steps, crate::proofs::Ahead::no_more_ahead))]
    pub(crate) fn next(&mut self) -> Item<'a>
        ensures { Steps result (here self.old.cursor) (here self.new.cursor) }
    {
        match self.cursor.next() {
            Ok(Some(token)) => match token.kind {
                TokenKind::Word => Item::Text(Word {
                    span: token.span,
                    text: token.text,
                }),
                TokenKind::Left => Item::Open(token.span),
                TokenKind::Right => Item::Close(token.span),
            },
            Ok(None) => Item::Close(Span {
                start: self.end,
                end: self.end,
            }),
            Err(_) => unreachable!(),
        }
    }
}
