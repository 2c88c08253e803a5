//! Which conditions do not hold in a state.
//!
//! Only a condition that fails gets memory of its own, and that ends the plan.
ghost use Rattle.std.specs.Prelude.{◌≡◌, [], ◌∷◌, ◌++◌, List, length, map, All, IfOk, OnOk};
ghost use Rattle.indexmap.specs.IndexSet.{insert_key};
ghost use Rattle.formulas.specs.Equality.{tree_eq};
ghost use Rattle.formulas.specs.Grounding.{with_objects};
ghost use Rattle.formulas.specs.Tree.{Tree};
ghost use Rattle.formulas.specs.Within.{IsWithin};
ghost use Rattle.strips_judge.specs.NumberedState.{state_of};
ghost use Rattle.strips_judge.specs.Step.{missing};

use crate::evaluation::holds;
use crate::scratch::Room;
use crate::state::NumberedState;
use crate::task_index::TaskIndex;
use formulas::ground;
use indexmap::IndexSet;
use std::alloc::{AllocError, Global};
use strips_task::{Formula, Seed, Seq};

/// The conditions that do not hold when the parameters are bound to these objects, in order, each only once. They name the objects.
pub(crate) fn missing(
    alloc: Global,
    task: &TaskIndex<'_>,
    state: &mut NumberedState<'_>,
    conditions: &[Formula],
    objects: &[u16],
    room: &mut Room,
) -> Result<Seq<Formula>, AllocError>
    requires { All (IsWithin (length objects.now) 0) conditions.now }
    ensures missing { IfOk result (λ found. found ≡ missing task.now (state_of state.old) (map (with_objects objects.now []) conditions.now)) }
    ensures same { state.new ≡ state.old }
{
    let mut found = IndexSet::with_hasher(alloc, state.seed());
    for condition in conditions {
        note_unmet(alloc, task, state, condition, objects, room, &mut found)?;
    }
    listed(alloc, found)
}

/// Adds a condition with these objects at the end if it does not hold, unless it is there.
#[inline(always)]
fn note_unmet(
    alloc: Global,
    task: &TaskIndex<'_>,
    state: &mut NumberedState<'_>,
    condition: &Formula,
    objects: &[u16],
    room: &mut Room,
    found: &mut IndexSet<Formula, Seed>,
) -> Result<(), AllocError>
    requires { IsWithin (length objects.now) 0 condition.now }
    ensures found { OnOk result ((before : List Tree) → found.old.keys ≡ missing task.now (state_of state.old) before
        → found.new.keys ≡ missing task.now (state_of state.old) (before ++ with_objects objects.now [] condition.now ∷ [])) }
    ensures same { state.new ≡ state.old }
{
    if holds(task, state, condition, objects, room)? {
        return Ok(());
    }
    note(found, ground(alloc, condition, objects, &[])?)
}

/// Adds a condition at the end, unless it is there. Takes one hash, however many there are.
fn note(found: &mut IndexSet<Formula, Seed>, condition: Formula) -> Result<(), AllocError>
    ensures { OnOk result (found.new.keys ≡ insert_key tree_eq found.old.keys condition) }
{
    found.insert(condition)?;
    Ok(())
}

/// The conditions of a set, in their order.
fn listed(alloc: Global, found: IndexSet<Formula, Seed>) -> Result<Seq<Formula>, AllocError>
    ensures { IfOk result (λ list. list ≡ found.keys) }
{
    Ok(Seq::from_vec(found.into_iter().collect(alloc)?))
}
