//! The objects that a variable may stand for: lists of them by type, made once for a task.
ghost use Rattle.std.specs.Prelude.{◌≡◌, ◌<◌, ◌∷◌, [], Some, IfOk, length, slice_get};
ghost use Rattle.strips_judge.specs.Listing.{AreLists, candidates_of};
ghost use Rattle.strips_judge.specs.State.{objects_of};

use crate::arguments::object_fits;
use std::alloc::{AllocError, Global};
use strips_task::{Action, Formula, Node, Seq, Task};

/// How often an object is tested at most while lists are made. So all lists of a task take 2 MiB at most.
const MOST_TESTS: usize = 1_048_576;

/// Objects, among which are those that a variable may stand for, in the order of their numbers.
#[derive(Clone, Copy)]
pub enum Candidates<'l> {
    /// So many objects, from the first on.
    Every(u16),
    /// The objects of a list.
    Listed(&'l [u16]),
}

impl Candidates<'_> {
    /// How many there are.
    pub fn len(self) -> usize
        ensures { result ≡ length (candidates_of self.entry) }
    {
        match self {
            Candidates::Every(count) => usize::from(count),
            Candidates::Listed(list) => list.len(),
        }
    }

    /// The object at an index.
    pub fn get(self, index: usize) -> u16
        requires { index < length (candidates_of self) }
        ensures { slice_get (candidates_of self.entry) index ≡ Some result }
    {
        match self {
            Candidates::Every(_) => index as u16,
            Candidates::Listed(list) => list[index],
        }
    }
}

/// The objects of the first types by number, as many as there is room for. A task of literals alone needs no lists.
pub(crate) fn list_objects(alloc: Global, task: &Task) -> Result<Vec<Seq<u16>>, AllocError>
    ensures { IfOk result (λ lists. AreLists task.now lists.items) }
{
    let mut lists = Vec::new(alloc);
    if !has_variables(task) {
        return Ok(lists);
    }
    let most = MOST_TESTS / task.object_count().max(1);
    for number in 0..task.type_count().min(most).min(usize::from(u16::MAX)) {
        lists.push(objects_below(alloc, task, number as u16)?)?;
    }
    Ok(lists)
}

/// The objects of a type, or of one below it.
fn objects_below(alloc: Global, task: &Task, number: u16) -> Result<Seq<u16>, AllocError>
    ensures { IfOk result (λ list. list ≡ objects_of task.now (number ∷ [])) }
{
    let mut list = Vec::new(alloc);
    for object in 0..task.object_count() as u16 {
        if object_fits(task, std::slice::from_ref(&number), object) {
            list.push(object)?;
        }
    }
    Ok(Seq::from_vec(list))
}

/// Whether a task may have quantifiers.
fn has_variables(task: &Task) -> bool {
    for number in 0..task.action_count() {
        if !is_plain(task.action(number as u16)) {
            return true;
        }
    }
    !are_literals(task.goal().as_slice())
}

/// Whether an action has only literals for conditions and only atoms for effects.
fn is_plain(action: &Action) -> bool {
    action.effects.is_empty() && are_literals(action.pre.as_slice())
}

/// Whether all formulas are literals.
fn are_literals(formulas: &[Formula]) -> bool {
    for formula in formulas {
        match formula.node() {
            Node::Atom(..) | Node::Equal(..) => {}
            _ => return false,
        }
    }
    true
}
