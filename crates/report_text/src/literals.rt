//! The text of literals: atoms and equalities with a sign.
//!
//! Names of predicates and objects come from the task, by number, and those of variables from the quantifiers around the literal.
ghost use Rattle.std.specs.Prelude.{◌≡◌, ◌++◌, OnOk, codes, map};
ghost use Rattle.std.specs.Map.Iter.{deref};
ghost use Rattle.std.specs.Map.{keys_of};
ghost use Rattle.report_text.specs.Notation.{word, opening, separated};
ghost use Rattle.report_text.specs.Conditions.{term_word, pattern_text, equality_text, signed};
ghost use Rattle.report_text.specs.Pieces.{name_at};

use crate::notation::{
    Notation, push_closing, push_head, push_not, push_separator, push_variable, push_word,
};
use crate::text::Text;
use std::alloc::AllocError;
use strips_task::{Name, Pattern, Task, Term};

/// Begins a list with the name of the predicate with a number; a number that no predicate has adds an empty word.
fn push_predicate(
    text: &mut Text,
    notation: Notation,
    task: &Task,
    number: u16,
) -> Result<(), AllocError>
    ensures { OnOk result (text.new ≡ text.old ++ (opening notation ++ word notation (name_at (keys_of task.now.preds) number))) }
{
    if usize::from(number) < task.pred_count() {
        return push_head(text, notation, task.pred_name(number).as_bytes());
    }
    push_head(text, notation, b"")
}

/// Adds the name of the object with a number; a number that no object has adds an empty word.
fn push_object(
    text: &mut Text,
    notation: Notation,
    task: &Task,
    number: u16,
) -> Result<(), AllocError>
    ensures { OnOk result (text.new ≡ text.old ++ word notation (name_at (keys_of task.now.objects) number)) }
{
    if usize::from(number) < task.object_count() {
        return push_word(text, notation, task.object_name(number).as_bytes());
    }
    push_word(text, notation, b"")
}

/// Adds the name of the variable with a level; a level that no variable has adds the question mark alone.
fn push_bound(
    text: &mut Text,
    notation: Notation,
    names: &[&Name],
    level: u16,
) -> Result<(), AllocError>
    ensures { OnOk result (text.new ≡ text.old ++ word notation (codes "?" ++ name_at (map deref names.now) level)) }
{
    match names.get(usize::from(level)) {
        Some(name) => push_variable(text, notation, name.as_bytes()),
        None => push_variable(text, notation, b""),
    }
}

/// Adds a term: a variable that is bound, or an object. `names` are those of the variables that are bound around it.
fn push_term(
    text: &mut Text,
    notation: Notation,
    task: &Task,
    names: &[&Name],
    term: Term,
) -> Result<(), AllocError>
    ensures { OnOk result (text.new ≡ text.old ++ term_word notation task.now (map deref names.now) term) }
{
    match term {
        Term::Param(_) => push_word(text, notation, b""),
        Term::Bound(level) => push_bound(text, notation, names, level),
        Term::Object(number) => push_object(text, notation, task, number),
    }
}

/// Adds terms, each behind a separator.
fn push_terms(
    text: &mut Text,
    notation: Notation,
    task: &Task,
    names: &[&Name],
    terms: &[Term],
) -> Result<(), AllocError>
    ensures { OnOk result (text.new ≡ text.old ++ separated notation (map (term_word notation task.now (map deref names.now)) terms.now)) }
{
    for term in terms {
        push_separator(text, notation)?;
        push_term(text, notation, task, names, *term)?;
    }
    Ok(())
}

/// Adds an atom.
fn push_pattern(
    text: &mut Text,
    notation: Notation,
    task: &Task,
    names: &[&Name],
    pattern: &Pattern,
) -> Result<(), AllocError>
    ensures { OnOk result (text.new ≡ text.old ++ pattern_text notation task.now (map deref names.now) pattern.now) }
{
    push_predicate(text, notation, task, pattern.pred)?;
    push_terms(text, notation, task, names, pattern.terms.as_slice())?;
    push_closing(text, notation)
}

/// Adds an atom with its sign.
pub(crate) fn push_signed_pattern(
    text: &mut Text,
    notation: Notation,
    task: &Task,
    names: &[&Name],
    positive: bool,
    pattern: &Pattern,
) -> Result<(), AllocError>
    ensures { OnOk result (text.new ≡ text.old ++ signed notation positive (pattern_text notation task.now (map deref names.now) pattern.now)) }
{
    if positive {
        return push_pattern(text, notation, task, names, pattern);
    }
    push_not(text, notation)?;
    push_pattern(text, notation, task, names, pattern)?;
    push_closing(text, notation)
}

/// Adds an equality.
fn push_equality(
    text: &mut Text,
    notation: Notation,
    task: &Task,
    names: &[&Name],
    left: Term,
    right: Term,
) -> Result<(), AllocError>
    ensures { OnOk result (text.new ≡ text.old ++ equality_text notation task.now (map deref names.now) left right) }
{
    push_head(text, notation, b"=")?;
    push_separator(text, notation)?;
    push_term(text, notation, task, names, left)?;
    push_separator(text, notation)?;
    push_term(text, notation, task, names, right)?;
    push_closing(text, notation)
}

/// Adds an equality with its sign.
pub(crate) fn push_signed_equality(
    text: &mut Text,
    notation: Notation,
    task: &Task,
    names: &[&Name],
    positive: bool,
    left: Term,
    right: Term,
) -> Result<(), AllocError>
    ensures { OnOk result (text.new ≡ text.old ++ signed notation positive (equality_text notation task.now (map deref names.now) left right)) }
{
    if positive {
        return push_equality(text, notation, task, names, left, right);
    }
    push_not(text, notation)?;
    push_equality(text, notation, task, names, left, right)?;
    push_closing(text, notation)
}
