//! The faults of words that may not appear where they are.

ghost use Rattle.std.specs.Prelude.{◌≢◌};

use crate::fault::{FaultKind, ReadFault};
use crate::heads::{Context, is_either, is_name};
use crate::walk::{Item, Walk, Word};
use pddl_tokens::{Span, WordKind, word_kind};

/// The fault of a word that heads no section, or names no part of an action, of those that are read.
pub(crate) fn keyword_fault(word: Word<'_>) -> ReadFault
    ensures { result.kind ≢ FaultKind.OutOfMemory }
{
    match word_kind(word.text) {
        WordKind::Keyword => ReadFault::new(FaultKind::Unsupported, word.span),
        _ => ReadFault::new(FaultKind::Expected, word.span),
    }
}

/// The fault of a word that may not appear here, where only one name is read and PDDL has others.
pub(crate) fn name_fault(word: Word<'_>) -> ReadFault
    ensures { result.kind ≢ FaultKind.OutOfMemory }
{
    if is_name(word.text) {
        ReadFault::new(FaultKind::Unsupported, word.span)
    } else {
        ReadFault::new(FaultKind::Expected, word.span)
    }
}

/// The fault of a word that is no name where the name of a function is due. In amounts PDDL has the signs of sums and products there.
pub(crate) fn function_fault(context: Context, word: Word<'_>) -> ReadFault
    ensures { result.kind ≢ FaultKind.OutOfMemory }
{
    match (context, word.text) {
        (Context::Effect, b"+" | b"-" | b"*" | b"/") => {
            ReadFault::new(FaultKind::Unsupported, word.span)
        }
        _ => ReadFault::new(FaultKind::Expected, word.span),
    }
}

/// The fault of a list where the type of names is due. The walk has entered it. A choice of types is refused as such.
pub(crate) fn list_fault(walk: &mut Walk<'_>, opening: Span) -> ReadFault
    ensures { result.kind ≢ FaultKind.OutOfMemory }
{
    match walk.next() {
        Item::Text(word) => {
            if is_either(word.text) {
                ReadFault::new(FaultKind::Unsupported, word.span)
            } else {
                ReadFault::new(FaultKind::Expected, opening)
            }
        }
        _ => ReadFault::new(FaultKind::Expected, opening),
    }
}
