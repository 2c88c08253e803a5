//! The names of steps, found by number.
ghost use Rattle.std.specs.Prelude.{◌≡◌, true, IfOk, IfSome, IsTrue, Some};
ghost use Rattle.pddl_words.specs.Words.{is_name, folded};
ghost use Rattle.strips_task.specs.Spelled.{IsSpelled, step_spelled};
ghost use Rattle.strips_judge.specs.StepNumbers.{AreWithin, IsNumbered, number_by};

use pddl_words::{RowWords, WordKind, word_kind};
use std::alloc::AllocError;
use strips_task::{Task, WordList};

/// Finds the numbers of the names of a step, if the row spells one and each name is known: the action's, and then those of the objects. Returns whether it
/// did. Otherwise the numbers are those of the words before the first that is no known name. `name` is room for a name in lower case.
///
/// A name in lower case of at most 16 bytes takes a hash and two reads of memory, and any other a look-up in the task's table. Takes memory for a name with
/// upper-case letters.
#[inline(always)]
pub(crate) fn number_names(
    task: &Task,
    row: &[u8],
    name: &mut WordList,
    numbers: &mut Vec<u16>,
) -> Result<bool, AllocError>
    ensures spelled { IfOk result (λ found. IsTrue found → IsSpelled row.now) }
    ensures numbered { IfOk result (λ found. IsTrue found → IsNumbered task.now (step_spelled row.now) numbers.new.items) }
    ensures within { IfOk result (λ _. AreWithin task.now numbers.new.items) }
{
    numbers.clear();
    let mut words = RowWords::new(row);
    'words: while let Some(word) = words.next() {
        match number_of(task, numbers.is_empty(), word, name)? {
            Some(number) => numbers.push(number)?,
            None => return Ok(false),
        }
    }
    Ok(!numbers.is_empty())
}

/// The number of the action or the object that a word names, if it is a known name.
#[inline(always)]
fn number_of(
    task: &Task,
    is_action: bool,
    word: &[u8],
    name: &mut WordList,
) -> Result<Option<u16>, AllocError>
    ensures { IfOk result (λ found. IfSome found (λ number.
        (is_name word.now ≡ true) × (number_by task.now is_action (folded word.now) ≡ Some number))) }
{
    match number_as_written(task, is_action, word) {
        Some(number) => Ok(Some(number)),
        None => number_in_lower_case(task, is_action, word, name),
    }
}

/// The same for a word in lower case.
#[inline(always)]
fn number_as_written(task: &Task, is_action: bool, word: &[u8]) -> Option<u16>
    ensures { IfSome result (λ number. (is_name word.now ≡ true) × (number_by task.now is_action (folded word.now) ≡ Some number)) }
{
    if is_action {
        task.action_spelled(word)
    } else {
        task.object_spelled(word)
    }
}

/// The same for any word, which is written in lower case first. Planners that write names in upper case repeat their steps as others do.
#[inline(never)]
fn number_in_lower_case(
    task: &Task,
    is_action: bool,
    word: &[u8],
    name: &mut WordList,
) -> Result<Option<u16>, AllocError>
    ensures { IfOk result (λ found. IfSome found (λ number.
        (is_name word.now ≡ true) × (number_by task.now is_action (folded word.now) ≡ Some number))) }
{
    if !is_name(word) {
        return Ok(None);
    }
    name.clear();
    name.push_folded(word)?;
    Ok(number_named(task, is_action, name.get(0)))
}

/// The number of the action or the object with a name.
fn number_named(task: &Task, is_action: bool, name: &[u8]) -> Option<u16>
    ensures { result ≡ number_by task.now is_action name.now }
{
    if is_action {
        task.action_named(name)
    } else {
        task.object_named(name)
    }
}

/// Whether a word is a name.
fn is_name(word: &[u8]) -> bool
    ensures { result ≡ is_name word.now }
{
    matches!(word_kind(word), WordKind::Name)
}
