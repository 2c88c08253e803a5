//! Steps into lists and out of them, and the words that must be in them.

ghost use Rattle.std.specs.Prelude.{◌≡◌};
ghost use Rattle.pddl_syntax.specs.Levels.{here};
ghost use Rattle.pddl_syntax.specs.Reading.{Enters, ReadsFront, ReadsList};
ghost use Rattle.pddl_syntax.specs.Forms.{name_form};
ghost use Rattle.pddl_syntax.specs.Syntax.{behind_word, end_of, first_list, header_of, lone_name};

use crate::fault::{FaultKind, ReadFault};
use crate::heads::is_name;
use crate::walk::{Item, NameWord, Walk};
use pddl_tokens::same_folded;

/// Steps into the list that is due.
#[tactic(auto, using(crate::proofs::ListLemmas::first_list_steps))]
pub(crate) fn enter_list(walk: &mut Walk<'_>) -> Result<(), ReadFault>
    ensures { Enters result first_list (here walk.old.cursor) (here walk.new.cursor) }
{
    match walk.next() {
        Item::Open(_) => Ok(()),
        Item::Text(word) => Err(ReadFault::new(FaultKind::Expected, word.span)),
        Item::Close(span) => Err(ReadFault::new(FaultKind::Expected, span)),
    }
}

/// Steps out of a list of which nothing is left.
#[tactic(auto, using(crate::proofs::ListLemmas::end_steps))]
pub(crate) fn leave_list(walk: &mut Walk<'_>) -> Result<(), ReadFault>
    ensures { ReadsList (λ _. tt) result end_of (here walk.old.cursor) (here walk.new.cursor) }
{
    match walk.next() {
        Item::Close(_) => Ok(()),
        Item::Text(word) => Err(ReadFault::new(FaultKind::Expected, word.span)),
        Item::Open(span) => Err(ReadFault::new(FaultKind::Expected, span)),
    }
}

/// Steps over the word that must be here.
#[tactic(auto, using(crate::proofs::ListLemmas::word_steps))]
pub(crate) fn expect_word(walk: &mut Walk<'_>, expected: &[u8]) -> Result<(), ReadFault>
    ensures { ReadsFront result (behind_word expected.now) (here walk.old.cursor) (here walk.new.cursor) }
{
    match walk.next() {
        Item::Text(word) => {
            if same_folded(word.text, expected) {
                return Ok(());
            }
            Err(ReadFault::new(FaultKind::Expected, word.span))
        }
        Item::Open(span) => Err(ReadFault::new(FaultKind::Expected, span)),
        Item::Close(span) => Err(ReadFault::new(FaultKind::Expected, span)),
    }
}

/// Reads the name that is all that is left of a list.
#[tactic(auto, using(crate::proofs::ListLemmas::name_steps))]
pub(crate) fn lone_name<'a>(walk: &mut Walk<'a>) -> Result<NameWord<'a>, ReadFault>
    ensures { ReadsList name_form result lone_name (here walk.old.cursor) (here walk.new.cursor) }
{
    match walk.next() {
        Item::Text(word) => {
            if !is_name(word.text) {
                return Err(ReadFault::new(FaultKind::Expected, word.span));
            }
            leave_list(walk)?;
            Ok(NameWord::new(word))
        }
        Item::Open(span) => Err(ReadFault::new(FaultKind::Expected, span)),
        Item::Close(span) => Err(ReadFault::new(FaultKind::Expected, span)),
    }
}

/// Reads the first list of a definition, which gives its kind and its name.
#[tactic(auto, using(crate::proofs::ListLemmas::header_steps))]
pub(crate) fn header<'a>(walk: &mut Walk<'a>, kind: &[u8]) -> Result<NameWord<'a>, ReadFault>
    ensures { ReadsList name_form result (header_of kind.now) (here walk.old.cursor) (here walk.new.cursor) }
{
    expect_word(walk, kind)?;
    lone_name(walk)
}
