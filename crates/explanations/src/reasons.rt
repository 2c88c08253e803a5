//! Why a condition does not hold: what does not hold inside it, down to the atoms, and which steps changed these last.

use crate::account::{
    Account, begin, begin_parts, end, end_line, end_parts, next_part, put_choice, say_count,
    say_line,
};
use crate::atoms::atom_of;
use crate::changes::push_step_of_change;
use crate::choices::Choices;
use crate::evaluation::{first_choice, holds};
use crate::page::Page;
use crate::plans::JudgedPlan;
use crate::world::LastChange;
use std::alloc::AllocError;
use strips_task::{Formula, Node, Pattern, VariableGroup};

/// How many formulas inside a condition are shown.
const MOST_PARTS: usize = 50;

/// Adds a condition that does not hold, and why. If it is a literal, `step` is the last step that changed its atom.
pub(crate) fn push_condition(
    page: &mut Page,
    judged: JudgedPlan<'_, '_, '_>,
    formula: &Formula,
    step: Option<usize>,
) {
    let bound = Vec::new(page.alloc());
    let mut account = Account {
        page,
        judged,
        bound,
        depth: 1,
        left: MOST_PARTS,
    };
    let put = put_false(&mut account, formula, step);
    account.page.note_memory(put);
}

/// Adds a formula that does not hold, and why.
#[cycle(reasons)]
fn put_false(
    account: &mut Account<'_, '_, '_, '_>,
    formula: &Formula,
    step: Option<usize>,
) -> Result<(), AllocError> {
    begin(account, formula);
    match formula.node() {
        Node::Atom(positive, pattern) => put_literal(account, *positive, pattern, step)?,
        Node::Equal(true, _, _) => say_line(account, "these are two objects"),
        Node::Equal(false, _, _) => say_line(account, "both are the same object"),
        Node::Not(_) => say_line(account, "the formula inside it holds"),
        Node::And(parts) => {
            let count = count_false(account, parts)?;
            say_count(account, count);
            put_parts(account, parts, count)?;
        }
        Node::Or(parts) => {
            say_line(account, words_of_or(parts.len()));
            put_parts(account, parts, parts.len())?;
        }
        Node::Imply(_, conclusion) => {
            say_line(account, "the premise holds, but the conclusion does not");
            put_only_part(account, conclusion)?;
        }
        Node::Exists(groups, body) => put_exists(account, groups.as_slice(), body)?,
        Node::ForAll(groups, body) => put_for_all(account, groups.as_slice(), body)?,
    }
    end(account);
    Ok(())
}

/// Adds those of some parts of a formula that do not hold. That is so many.
#[cycle(reasons)]
fn put_parts(
    account: &mut Account<'_, '_, '_, '_>,
    parts: &[Formula],
    count: usize,
) -> Result<(), AllocError> {
    begin_parts(account);
    let mut shown: usize = 0;
    for part in parts {
        if account.left > 0 && !is_true(account, part)? {
            next_part(account, shown);
            put_part(account, part)?;
            shown = shown.saturating_add(1);
        }
    }
    end_parts(account, count.saturating_sub(shown));
    Ok(())
}

/// Adds the only part of a formula that does not hold, unless too many formulas were shown.
#[cycle(reasons)]
fn put_only_part(account: &mut Account<'_, '_, '_, '_>, part: &Formula) -> Result<(), AllocError> {
    begin_parts(account);
    let is_shown = account.left > 0;
    if is_shown {
        put_part(account, part)?;
    }
    end_parts(account, usize::from(!is_shown));
    Ok(())
}

/// Adds a part of a formula.
#[cycle(reasons)]
fn put_part(account: &mut Account<'_, '_, '_, '_>, part: &Formula) -> Result<(), AllocError> {
    account.left = account.left.saturating_sub(1);
    let step = last_step(account, part)?;
    put_false(account, part, step)
}

/// Adds why no choice of objects makes the body of a quantifier true.
#[cycle(reasons)]
fn put_exists(
    account: &mut Account<'_, '_, '_, '_>,
    groups: &[VariableGroup],
    body: &Formula,
) -> Result<(), AllocError> {
    match variable_count(groups) {
        0 => {
            say_line(account, "the formula inside it does not hold");
            put_only_part(account, body)?;
        }
        1 => say_line(account, "no object makes it true"),
        _ => say_line(account, "no objects make it true"),
    }
    Ok(())
}

/// Adds the first choice of objects with which the body of a quantifier does not hold, and why it does not.
#[cycle(reasons)]
fn put_for_all(
    account: &mut Account<'_, '_, '_, '_>,
    groups: &[VariableGroup],
    body: &Formula,
) -> Result<(), AllocError> {
    let world = account.judged.world;
    let Some(number) = first_choice(world, groups, body, false, &[], &mut account.bound)? else {
        say_line(account, "it does not hold");
        return Ok(());
    };
    let outside = account.bound.len();
    let choices = Choices::new(world.alloc(), world.task(), groups)?;
    choices.bind(number, &mut account.bound)?;
    put_choice(account, groups, outside);
    put_only_part(account, body)?;
    account.bound.truncate(outside);
    Ok(())
}

/// How many of some formulas do not hold.
fn count_false(
    account: &mut Account<'_, '_, '_, '_>,
    formulas: &[Formula],
) -> Result<usize, AllocError> {
    let mut count: usize = 0;
    for formula in formulas {
        if !is_true(account, formula)? {
            count = count.saturating_add(1);
        }
    }
    Ok(count)
}

/// Whether a formula holds.
fn is_true(account: &mut Account<'_, '_, '_, '_>, formula: &Formula) -> Result<bool, AllocError> {
    holds(account.judged.world, formula, &[], &mut account.bound)
}

/// The last step that changed an atom, if the formula is a literal.
fn last_step(
    account: &Account<'_, '_, '_, '_>,
    formula: &Formula,
) -> Result<Option<usize>, AllocError> {
    match formula.node() {
        Node::Atom(_, pattern) => {
            let change = last_change(account, pattern)?;
            Ok(change.map(|change| change.step))
        }
        _ => Ok(None),
    }
}

/// The last change of the atom of a pattern.
fn last_change<'f, 't>(
    account: &Account<'_, '_, 'f, 't>,
    pattern: &Pattern,
) -> Result<Option<&'f LastChange<'t>>, AllocError> {
    let world = account.judged.world;
    let atom = atom_of(world.alloc(), pattern, &[], account.bound.as_slice())?;
    Ok(world.last_change(&atom))
}

/// How many variables groups have.
fn variable_count(groups: &[VariableGroup]) -> usize {
    let mut count: usize = 0;
    for group in groups {
        count = count.saturating_add(group.names.len());
    }
    count
}

/// Why a disjunction with so many parts does not hold.
fn words_of_or(count: usize) -> &'static str {
    match count {
        0 => "it has no parts",
        _ => "none of its parts holds",
    }
}

/// Adds why a literal does not hold: the last step that changed its atom, if one did.
fn put_literal(
    account: &mut Account<'_, '_, '_, '_>,
    positive: bool,
    pattern: &Pattern,
    step: Option<usize>,
) -> Result<(), AllocError> {
    let change = last_change(account, pattern)?;
    match step {
        Some(step) => push_step_of_change(account.page, account.judged, positive, step, change),
        None if account.page.is_json() => account.page.say("null"),
        None if positive => account.page.say("it was never true"),
        None => account.page.say("it was true from the start"),
    }
    end_line(account);
    Ok(())
}
