//! What holds in every state of a task, or in none.
ghost use Rattle.std.specs.Prelude.{◌≡◌, IfOk, IfSome, length};
ghost use Rattle.formulas.specs.Within.{IsWithin};
ghost use Rattle.strips_judge.specs.Choices.{holds_bound};
ghost use Rattle.strips_judge.specs.State.{State};
ghost use Rattle.strips_judge.specs.Statics.{KeepsStatics};

use std::alloc::AllocError;
use strips_judge::{Arguments, equality_holds};
use strips_task::{Atom, Formula, Node};

/// Whether a formula holds in every state of the task, or in none, if that is seen at once: it is an equality, or a literal of a static predicate.
#[inline(always)]
pub(crate) fn lasting_truth(
    arguments: Arguments<'_, '_>,
    formula: &Formula,
    bound: &[u16],
    atom: &mut Atom,
) -> Result<Option<bool>, AllocError>
    requires { IsWithin (length arguments.objects.now) (length bound.now) formula.now }
    ensures { IfOk result (λ truth. IfSome truth (λ truth. (state : State) → KeepsStatics arguments.entry.task.now state
        → holds_bound arguments.entry.task.now state arguments.entry.objects.now bound.now formula.now ≡ truth)) }
{
    let objects = arguments.objects;
    match formula.node() {
        Node::Equal(positive, left, right) => {
            Ok(Some(equality_holds(*positive, *left, *right, objects, bound)))
        }
        Node::Atom(positive, pattern) => {
            let truth = arguments.task.lasting_truth(pattern, objects, bound, atom)?;
            Ok(truth.map(|truth| truth == *positive))
        }
        _ => Ok(None),
    }
}
