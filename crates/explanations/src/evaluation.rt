//! Whether a formula holds in a world.

use crate::atoms::{atom_of, object_of};
use crate::choices::Choices;
use crate::world::World;
use std::alloc::AllocError;
use strips_task::{Formula, Node, VariableGroup};

/// Whether a formula holds, with these objects for the parameters of the action and for the variables that are bound around it.
#[cycle(evaluation)]
pub(crate) fn holds(
    world: &World<'_>,
    formula: &Formula,
    objects: &[u16],
    bound: &mut Vec<u16>,
) -> Result<bool, AllocError> {
    match formula.node() {
        Node::Atom(positive, pattern) => {
            let atom = atom_of(world.alloc(), pattern, objects, bound.as_slice())?;
            Ok(world.holds(&atom) == *positive)
        }
        Node::Equal(positive, left, right) => {
            let left = object_of(*left, objects, bound.as_slice());
            Ok((left == object_of(*right, objects, bound.as_slice())) == *positive)
        }
        Node::Not(body) => Ok(!holds(world, body, objects, bound)?),
        Node::And(parts) => Ok(!some_is(world, parts, false, objects, bound)?),
        Node::Or(parts) => some_is(world, parts, true, objects, bound),
        Node::Imply(premise, conclusion) => {
            if !holds(world, premise, objects, bound)? {
                return Ok(true);
            }
            holds(world, conclusion, objects, bound)
        }
        Node::Exists(groups, body) => {
            let found = first_choice(world, groups.as_slice(), body, true, objects, bound)?;
            Ok(found.is_some())
        }
        Node::ForAll(groups, body) => {
            let found = first_choice(world, groups.as_slice(), body, false, objects, bound)?;
            Ok(found.is_none())
        }
    }
}

/// Whether one of these formulas is true, or is false.
#[cycle(evaluation)]
fn some_is(
    world: &World<'_>,
    formulas: &[Formula],
    truth: bool,
    objects: &[u16],
    bound: &mut Vec<u16>,
) -> Result<bool, AllocError> {
    for formula in formulas {
        if holds(world, formula, objects, bound)? == truth {
            return Ok(true);
        }
    }
    Ok(false)
}

/// The first choice of objects for the variables of a quantifier with which its body is true, or is false.
#[cycle(evaluation)]
pub(crate) fn first_choice(
    world: &World<'_>,
    groups: &[VariableGroup],
    body: &Formula,
    truth: bool,
    objects: &[u16],
    bound: &mut Vec<u16>,
) -> Result<Option<usize>, AllocError> {
    let choices = Choices::new(world.alloc(), world.task(), groups)?;
    let outside = bound.len();
    for number in 0..choices.count() {
        choices.bind(number, bound)?;
        let found = holds(world, body, objects, bound)? == truth;
        bound.truncate(outside);
        if found {
            return Ok(Some(number));
        }
    }
    Ok(None)
}
