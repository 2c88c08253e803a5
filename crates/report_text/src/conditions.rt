//! The text of conditions, as PDDL and as JSON: one walk over a formula writes either.
ghost use Rattle.std.specs.Prelude.{◌≡◌, ◌++◌, [], ◌∷◌, OnOk, IfOk, map};
ghost use Rattle.std.specs.Map.Iter.{deref};
ghost use Rattle.report_text.specs.Notation.{listed, headed};
ghost use Rattle.report_text.specs.Conditions.{names_of, groups_words, formula_text, condition_text, json_condition};

use crate::literals::{push_signed_equality, push_signed_pattern};
use crate::notation::{Notation, push_closing, push_head, push_not, push_separator};
use crate::text::Text;
use crate::variables::push_variables;
use std::alloc::{AllocError, Global};
use strips_task::{Formula, Name, Node, Task, VariableGroup};

/// Adds a condition.
pub fn push_condition(text: &mut Text, task: &Task, condition: &Formula) -> Result<(), AllocError>
    ensures { OnOk result (text.new ≡ text.old ++ condition_text task.now condition.now) }
{
    push_formula(text, Notation::Pddl, task, &[], condition)
}

/// Adds a condition in JSON.
pub(crate) fn push_json_condition(
    text: &mut Text,
    task: &Task,
    condition: &Formula,
) -> Result<(), AllocError>
    ensures { OnOk result (text.new ≡ text.old ++ json_condition task.now condition.now) }
{
    push_formula(text, Notation::Json, task, &[], condition)
}

/// Adds a formula. `names` are those of the variables that are bound around it.
#[cycle(formula)]
#[tactic(auto, using(crate::proofs::ConditionTexts::printed_parts))]
fn push_formula<'a>(
    text: &mut Text,
    notation: Notation,
    task: &Task,
    names: &[&'a Name],
    formula: &'a Formula,
) -> Result<(), AllocError>
    ensures { OnOk result (text.new ≡ text.old ++ formula_text notation task.now (map deref names.now) formula.now) }
{
    match formula.node() {
        Node::Atom(positive, pattern) => {
            push_signed_pattern(text, notation, task, names, *positive, pattern)
        }
        Node::Equal(positive, left, right) => {
            push_signed_equality(text, notation, task, names, *positive, *left, *right)
        }
        Node::Not(body) => {
            push_not(text, notation)?;
            push_formula(text, notation, task, names, body)?;
            push_closing(text, notation)
        }
        Node::And(parts) => push_parts(text, notation, task, names, b"and", parts),
        Node::Or(parts) => push_parts(text, notation, task, names, b"or", parts),
        Node::Imply(premise, conclusion) => {
            push_head(text, notation, b"imply")?;
            push_separator(text, notation)?;
            push_formula(text, notation, task, names, premise)?;
            push_separator(text, notation)?;
            push_formula(text, notation, task, names, conclusion)?;
            push_closing(text, notation)
        }
        Node::Exists(own, body) => {
            push_quantified(text, notation, task, names, b"exists", own.as_slice(), body)
        }
        Node::ForAll(own, body) => {
            push_quantified(text, notation, task, names, b"forall", own.as_slice(), body)
        }
    }
}

/// Adds the list of an operator and its parts.
#[cycle(formula)]
fn push_parts<'a>(
    text: &mut Text,
    notation: Notation,
    task: &Task,
    names: &[&'a Name],
    operator: &[u8],
    parts: &'a [Formula],
) -> Result<(), AllocError>
    ensures { OnOk result (text.new ≡ text.old ++ headed notation operator.now (map (formula_text notation task.now (map deref names.now)) parts.now)) }
{
    push_head(text, notation, operator)?;
    for part in parts {
        push_separator(text, notation)?;
        push_formula(text, notation, task, names, part)?;
    }
    push_closing(text, notation)
}

/// Adds the list of a quantifier, its variables and its body.
#[cycle(formula)]
fn push_quantified<'a>(
    text: &mut Text,
    notation: Notation,
    task: &Task,
    names: &[&'a Name],
    quantifier: &[u8],
    groups: &'a [VariableGroup],
    body: &'a Formula,
) -> Result<(), AllocError>
    ensures { OnOk result (text.new ≡ text.old ++ headed notation quantifier.now
        (listed notation (groups_words notation task.now groups.now) ∷ formula_text notation task.now (map deref names.now ++ names_of groups.now) body.now ∷ [])) }
{
    push_head(text, notation, quantifier)?;
    push_separator(text, notation)?;
    push_variables(text, notation, task, groups)?;
    push_separator(text, notation)?;
    let inner = inner_names(text.alloc(), names, groups)?;
    push_formula(text, notation, task, inner.as_slice(), body)?;
    push_closing(text, notation)
}

/// The names of the variables that are bound inside a quantifier: those that are bound around it, and its own.
fn inner_names<'a>(
    alloc: Global,
    names: &[&'a Name],
    groups: &'a [VariableGroup],
) -> Result<Vec<&'a Name>, AllocError>
    ensures { IfOk result (λ inner. map deref inner.items ≡ map deref names.now ++ names_of groups.now) }
{
    let mut inner = Vec::new(alloc);
    inner.extend_from_slice(names)?;
    for group in groups {
        extend_names(&mut inner, group.names.as_slice())?;
    }
    Ok(inner)
}

/// Adds names at the end of a list of names.
fn extend_names<'a>(inner: &mut Vec<&'a Name>, names: &'a [Name]) -> Result<(), AllocError>
    ensures { OnOk result (map deref inner.new.items ≡ map deref inner.old.items ++ names.now) }
{
    for name in names {
        inner.push(name)?;
    }
    Ok(())
}
