//! The bindings of quantifiers, added up over formulas and effects.
//!
//! A product is kept only up to one more than the limit. That is enough: a larger one passes the limit too, and stays above it unless a variable has no
//! objects, with which it is 0.
ghost use Rattle.std.specs.Prelude.{◌≡◌, ◌+◌, ◌≤◌, ◌↔◌, ◌∷◌, [], false, length};
ghost use Rattle.std.specs.List.{flat_map};
ghost use Rattle.formulas.specs.Variables.{variable_types};
ghost use Rattle.task_reader.specs.Objects.{object_count};
ghost use Rattle.task_reader.specs.Bindings.{added, bindings, choices_for, effect_quantifiers, first_past, in_64_bits, most_bindings, quantifier_of, quantifiers, times, with_quantifier, with_quantifiers};
ghost use Rattle.task_reader.specs.Capped.{capped, past_in_group, repeated};

use crate::objects::ObjectCounts;
use formulas::{Effect, EffectNode, Formula, Node, VariableGroup};

/// The most bindings that all quantifiers of an action, or of the goal, may have together.
const MOST_BINDINGS: u64 = 16_777_216;

/// What is counted of the quantifiers of an action, or of the goal.
#[derive(Clone, Copy)]
pub(crate) struct Tally {
    /// The bindings of those counted so far, added up.
    pub(crate) bindings: u64,
    /// How many variables they have.
    pub(crate) variables: u64,
}

/// Before any quantifier.
pub(crate) const NOTHING_COUNTED: Tally = Tally {
    bindings: 0,
    variables: 0,
};

/// Counts the quantifiers of a formula, or finds the index of the variable with which the limit is passed.
#[cycle(formulas)]
fn add_formula(
    counts: &ObjectCounts<'_>,
    tally: Tally,
    around: u64,
    formula: &Formula,
) -> Result<Tally, u64>
    requires { around ≤ most_bindings + 1 }
    ensures { result ≡ with_quantifiers tally (quantifiers counts.now.tally.task.now around formula.now) }
{
    match formula.node() {
        Node::Atom(_, _) => Ok(tally),
        Node::Equal(_, _, _) => Ok(tally),
        Node::Not(body) => add_formula(counts, tally, around, body),
        Node::And(parts) => add_formulas(counts, tally, around, parts),
        Node::Or(parts) => add_formulas(counts, tally, around, parts),
        Node::Imply(premise, conclusion) => {
            let next = add_formula(counts, tally, around, premise)?;
            add_formula(counts, next, around, conclusion)
        }
        Node::Exists(groups, body) => add_bound(counts, tally, around, groups.as_slice(), body),
        Node::ForAll(groups, body) => add_bound(counts, tally, around, groups.as_slice(), body),
    }
}

/// The same for a quantifier and its body.
#[cycle(formulas)]
fn add_bound(
    counts: &ObjectCounts<'_>,
    tally: Tally,
    around: u64,
    groups: &[VariableGroup],
    body: &Formula,
) -> Result<Tally, u64>
    requires { around ≤ most_bindings + 1 }
    ensures { result ≡ with_quantifiers tally (quantifier_of counts.now.tally.task.now around groups.now
        ∷ quantifiers counts.now.tally.task.now (bindings (quantifier_of counts.now.tally.task.now around groups.now)) body.now) }
{
    let next = add_quantifier(counts, tally, around, groups)?;
    add_formula(counts, next, inside(counts, around, groups), body)
}

/// The same for several formulas.
#[cycle(formulas)]
pub(crate) fn add_formulas(
    counts: &ObjectCounts<'_>,
    tally: Tally,
    around: u64,
    formulas: &[Formula],
) -> Result<Tally, u64>
    requires { around ≤ most_bindings + 1 }
    ensures { result ≡ with_quantifiers tally (flat_map (quantifiers counts.now.tally.task.now around) formulas.now) }
{
    let mut next = tally;
    for formula in formulas {
        next = add_formula(counts, next, around, formula)?;
    }
    Ok(next)
}

/// Counts the quantifiers of an effect, or finds the index of the variable with which the limit is passed.
#[cycle(effects)]
fn add_effect(
    counts: &ObjectCounts<'_>,
    tally: Tally,
    around: u64,
    effect: &Effect,
) -> Result<Tally, u64>
    requires { around ≤ most_bindings + 1 }
    ensures { result ≡ with_quantifiers tally (effect_quantifiers counts.now.tally.task.now around effect.now) }
{
    match effect.node() {
        EffectNode::Atom(_, _) => Ok(tally),
        EffectNode::And(parts) => add_effects(counts, tally, around, parts),
        EffectNode::When(condition, body) => {
            let next = add_formula(counts, tally, around, condition)?;
            add_effect(counts, next, around, body)
        }
        EffectNode::ForAll(groups, body) => {
            let next = add_quantifier(counts, tally, around, groups.as_slice())?;
            add_effect(
                counts,
                next,
                inside(counts, around, groups.as_slice()),
                body,
            )
        }
    }
}

/// The same for several effects.
#[cycle(effects)]
pub(crate) fn add_effects(
    counts: &ObjectCounts<'_>,
    tally: Tally,
    around: u64,
    effects: &[Effect],
) -> Result<Tally, u64>
    requires { around ≤ most_bindings + 1 }
    ensures { result ≡ with_quantifiers tally (flat_map (effect_quantifiers counts.now.tally.task.now around) effects.now) }
{
    let mut next = tally;
    for effect in effects {
        next = add_effect(counts, next, around, effect)?;
    }
    Ok(next)
}

/// Counts a quantifier with these variables, or finds the index of the variable with which the limit is passed.
fn add_quantifier(
    counts: &ObjectCounts<'_>,
    tally: Tally,
    around: u64,
    groups: &[VariableGroup],
) -> Result<Tally, u64>
    requires { around ≤ most_bindings + 1 }
    ensures { result ≡ with_quantifier tally (quantifier_of counts.now.tally.task.now around groups.now) }
{
    let bindings = tally.bindings.saturating_add(added(counts, around, groups));
    if bindings > MOST_BINDINGS {
        let Tally {
            bindings,
            variables,
        } = tally;
        return Err(variable_past(counts, bindings, variables, around, groups));
    }
    Ok(Tally {
        bindings,
        variables: variables_with(tally.variables, groups),
    })
}

/// How many bindings a quantifier with these variables adds to the sum.
fn added(counts: &ObjectCounts<'_>, around: u64, groups: &[VariableGroup]) -> u64
    requires { around ≤ most_bindings + 1 }
    ensures { result ≡ capped (added around (choices_for counts.now.tally.task.now groups.now)) }
{
    if have_variables(groups) {
        inside(counts, around, groups)
    } else {
        0
    }
}

/// Whether there is a variable in one of these groups.
fn have_variables(groups: &[VariableGroup]) -> bool
    ensures { (result ≡ false) ↔ (variable_types groups.now ≡ []) }
{
    for group in groups {
        if !group.names.is_empty() {
            return true;
        }
    }
    false
}

/// The bindings around what is inside a quantifier with these variables, which are those of the quantifier.
fn inside(counts: &ObjectCounts<'_>, around: u64, groups: &[VariableGroup]) -> u64
    requires { around ≤ most_bindings + 1 }
    ensures product { result ≡ capped (times around (choices_for counts.now.tally.task.now groups.now)) }
    ensures bound { result ≤ most_bindings + 1 }
{
    let mut product = around;
    for group in groups {
        let count = counts.of(group.types.as_slice());
        product = power(product, count, group.names.len());
    }
    product
}

/// A product times a number for each of several variables.
fn power(product: u64, count: u32, variables: usize) -> u64
    requires { product ≤ most_bindings + 1 }
    ensures product { result ≡ capped (times product (repeated variables count)) }
    ensures bound { result ≤ most_bindings + 1 }
{
    let mut power = product;
    for _ in 0..variables {
        power = (power * u64::from(count)).min(MOST_BINDINGS + 1);
    }
    power
}

/// How many variables there are with those of these groups.
fn variables_with(before: u64, groups: &[VariableGroup]) -> u64
    ensures { result ≡ in_64_bits (before + length (variable_types groups.now)) }
{
    let mut variables = before;
    for group in groups {
        variables = variables.saturating_add(group.names.len() as u64);
    }
    variables
}

/// The index of the first variable with which the bindings of a quantifier, and those `counted` before it, are above the limit, if its variables are numbered from
/// `first` on.
fn variable_past(
    counts: &ObjectCounts<'_>,
    counted: u64,
    first: u64,
    around: u64,
    groups: &[VariableGroup],
) -> u64
    requires { around ≤ most_bindings + 1 }
    ensures { result ≡ in_64_bits (first + first_past counted around (choices_for counts.now.tally.task.now groups.now)) }
{
    let mut index = first;
    let mut product = around;
    for group in groups {
        let count = counts.of(group.types.as_slice());
        let variables = group.names.len();
        if let Some(before) = past_in_group(counted, product, count, variables) {
            return index.saturating_add(before as u64);
        }
        product = power(product, count, variables);
        index = index.saturating_add(variables as u64);
    }
    index
}

/// The index of the first of some variables of the same types with which the limit is passed, if it is.
fn past_in_group(counted: u64, product: u64, count: u32, variables: usize) -> Option<usize>
    requires { product ≤ most_bindings + 1 }
    ensures { result ≡ past_in_group counted product count variables }
{
    let mut power = product;
    for index in 0..variables {
        power = (power * u64::from(count)).min(MOST_BINDINGS + 1);
        if counted.saturating_add(power) > MOST_BINDINGS {
            return Some(index);
        }
    }
    None
}
