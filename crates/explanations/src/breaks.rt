//! Where a text stops being a plan: the first word, parenthesis or byte that is not allowed.

use crate::positions::Range;
use pddl_tokens::{Cursor, Token, TokenKind};
use pddl_words::{WordKind, billionths, word_kind};
use strips_task::MOST_STEPS;

/// What may come next in a plan.
#[derive(Clone, Copy, PartialEq, Eq)]
pub(crate) enum Want {
    /// A step, or a stamp before it.
    Step,
    /// A step or a stamp, or the number in brackets of the step before.
    Number,
    /// A step whose stamp was read.
    Opening,
    /// The name of an action.
    Action,
    /// The name of an object, or the end of the step.
    Argument,
}

/// Why a text stops being a plan.
#[derive(Clone, Copy, PartialEq, Eq)]
pub(crate) enum Cause {
    /// A word or a parenthesis that is not allowed here.
    Token,
    /// A byte that is allowed in comments only.
    Byte,
    /// The text ends too early.
    End,
    /// One step more than a plan may have.
    TooMany,
}

/// Where a text stops being a plan.
#[derive(Clone, Copy)]
pub(crate) struct Break {
    pub(crate) range: Range,
    pub(crate) cause: Cause,
    /// What could have been there.
    pub(crate) want: Want,
}

/// How far a plan was read.
#[derive(Clone, Copy)]
struct Reading {
    want: Want,
    /// The least value of the next stamp, in billionths.
    least_stamp: u64,
    steps: usize,
}

/// Where a text stops being a plan, if it does.
pub(crate) fn break_of(text: &[u8]) -> Option<Break> {
    let Ok(mut cursor) = Cursor::new(text) else {
        return None;
    };
    let mut reading = Reading {
        want: Want::Step,
        least_stamp: 0,
        steps: 0,
    };
    'tokens: loop {
        match cursor.next() {
            Ok(Some(token)) => match reading.after(token) {
                Some(next) => reading = next,
                None => return Some(reading.at_token(token)),
            },
            Ok(None) => return reading.at_end(text.len()),
            Err(byte) => return Some(reading.at_byte(byte.at as usize)),
        }
    }
}

impl Reading {
    /// The reading after a token, if the token is allowed.
    fn after(self, token: Token<'_>) -> Option<Reading> {
        match token.kind {
            TokenKind::Left => self.after_left(),
            TokenKind::Right => self.after_right(),
            TokenKind::Word => self.after_word(token.text),
        }
    }

    fn then(self, want: Want) -> Reading {
        Reading { want, ..self }
    }

    /// Whether as many steps were read as a plan may have.
    fn is_full(self) -> bool {
        self.steps >= MOST_STEPS && matches!(self.want, Want::Step | Want::Number)
    }

    fn after_left(self) -> Option<Reading> {
        match self.want {
            Want::Step | Want::Number if !self.is_full() => Some(self.then(Want::Action)),
            Want::Opening => Some(self.then(Want::Action)),
            _ => None,
        }
    }

    fn after_right(self) -> Option<Reading> {
        if self.want != Want::Argument {
            return None;
        }
        Some(Reading {
            want: Want::Number,
            steps: self.steps.saturating_add(1),
            least_stamp: self.least_stamp,
        })
    }

    fn after_word(self, word: &[u8]) -> Option<Reading> {
        match self.want {
            Want::Action | Want::Argument => match word_kind(word) {
                WordKind::Name => Some(self.then(Want::Argument)),
                _ => None,
            },
            Want::Opening => None,
            Want::Number => match word.strip_prefix(b"[") {
                Some(number) => {
                    marked_number(b']', number)?;
                    Some(self.then(Want::Step))
                }
                None => self.after_stamp(word),
            },
            Want::Step => self.after_stamp(word),
        }
    }

    fn after_stamp(self, word: &[u8]) -> Option<Reading> {
        let stamp = marked_number(b':', word)?;
        if stamp < self.least_stamp || self.is_full() {
            return None;
        }
        Some(Reading {
            want: Want::Opening,
            least_stamp: stamp.saturating_add(1),
            steps: self.steps,
        })
    }

    fn at_token(self, token: Token<'_>) -> Break {
        let is_word = matches!(token.kind, TokenKind::Word);
        let is_step = matches!(token.kind, TokenKind::Left) || is_word && is_stamp(token.text);
        Break {
            range: Range {
                start: token.span.start as usize,
                end: token.span.end as usize,
            },
            cause: if self.is_full() && is_step {
                Cause::TooMany
            } else {
                Cause::Token
            },
            want: self.want,
        }
    }

    fn at_end(self, size: usize) -> Option<Break> {
        if matches!(self.want, Want::Step | Want::Number) {
            return None;
        }
        Some(Break {
            range: Range {
                start: size,
                end: size,
            },
            cause: Cause::End,
            want: self.want,
        })
    }

    fn at_byte(self, at: usize) -> Break {
        Break {
            range: Range {
                start: at,
                end: at.saturating_add(1),
            },
            cause: Cause::Byte,
            want: self.want,
        }
    }
}

/// Whether a word is a stamp.
pub(crate) fn is_stamp(word: &[u8]) -> bool {
    marked_number(b':', word).is_some()
}

/// The number before a mark that ends a word, in billionths.
fn marked_number(mark: u8, word: &[u8]) -> Option<u64> {
    match word.split_last() {
        Some((last, number)) if *last == mark => billionths(number),
        _ => None,
    }
}
