//! The words that join formulas and effects, besides `and`.

use crate::tokens::Pieces;

/// What the first word of a list does, if it names no predicate.
#[derive(Clone, Copy, PartialEq, Eq)]
pub(crate) enum Connective {
    /// A `not` before an atom: the two are a literal.
    Literal,
    /// A `not` before another formula.
    Not,
    Or,
    Imply,
    Exists,
    ForAll,
    When,
}

/// What the first word of the list does whose `(` has this number.
pub(crate) fn connective_at(pieces: &Pieces<'_>, open: usize) -> Option<Connective> {
    let head = pieces.word(open.saturating_add(1));
    if !head.eq_ignore_ascii_case(b"not") {
        return connective_of(head);
    }
    let inner = pieces.word(open.saturating_add(3));
    let is_atom = !inner.is_empty()
        && !inner.eq_ignore_ascii_case(b"and")
        && !inner.eq_ignore_ascii_case(b"not")
        && connective_of(inner).is_none();
    Some(if is_atom {
        Connective::Literal
    } else {
        Connective::Not
    })
}

/// What a word besides `and` and `not` does, if it joins formulas or effects, or binds variables.
pub(crate) fn connective_of(word: &[u8]) -> Option<Connective> {
    if word.eq_ignore_ascii_case(b"or") {
        Some(Connective::Or)
    } else if word.eq_ignore_ascii_case(b"imply") {
        Some(Connective::Imply)
    } else if word.eq_ignore_ascii_case(b"exists") {
        Some(Connective::Exists)
    } else if word.eq_ignore_ascii_case(b"forall") {
        Some(Connective::ForAll)
    } else if word.eq_ignore_ascii_case(b"when") {
        Some(Connective::When)
    } else {
        None
    }
}
