//! The parts and sections that are given.

ghost use Rattle.std.specs.Prelude.{◌≡◌, [], unwrap_or};
ghost use Rattle.pddl_syntax.specs.Forms.{variable_groups};
ghost use Rattle.pddl_syntax.specs.Reading.{GivesAgain};
ghost use Rattle.pddl_reader.specs.Parts.{part_items};

use pddl_syntax::{ReadFault, VariableGroup, VariableList};
use std::alloc::Global;

/// What a part or a section holds, which is nothing if it is not given.
#[tactic(auto, unfolding(crate::specs::Parts::part_items))]
pub(crate) fn part_items<T>(part: &Option<Vec<T>>) -> &[T]
    ensures { result.now ≡ part_items part.now }
{
    match part {
        Some(found) => found.as_slice(),
        None => &[],
    }
}

/// The variables of a part, none if it is not given.
#[tactic(auto, using(pddl_syntax::proofs::VariableLemmas::no_groups))]
pub(crate) fn part_variables<'a>(
    alloc: Global,
    part: &Option<VariableList<'a>>,
) -> Result<Vec<VariableGroup<'a>>, ReadFault>
    ensures { GivesAgain (λ v. variable_groups v.items) result (unwrap_or part.now []) }
{
    match part {
        Some(found) => found.groups(alloc),
        None => Ok(Vec::new(alloc)),
    }
}
