//! Reads the two texts, and then tests the limit of bindings.
ghost use Rattle.std.specs.Prelude.{◌≡◌, ◌≢◌, IfOk, IfErr, Some, None, Err};
ghost use Rattle.pddl_syntax.specs.declared.fault.ReadFault as read_fault;
ghost use Rattle.pddl_syntax.specs.Trees.{text_fault};
ghost use Rattle.task_reader.specs.Texts.{task_in};
ghost use Rattle.task_reader.specs.Faults.{CallsFor, IsFaultOfExcess, kind_of};
ghost use Rattle.task_reader.specs.declared.readers.TaskFault.TheVariants.{Domain};

use crate::excess::{Excess, Whose, first_excess};
use crate::spans::{action_fault, goal_fault};
use pddl_reader::{Dialect, FaultKind, ReadFault, Seed, read_domain_in, read_problem_in};
use std::alloc::{AllocError, Global};
use strips_task::CostedTask;

/// Which of the two texts is refused, and why. If memory runs out, the kind of the fault is [`FaultKind::OutOfMemory`], with either text.
#[derive(Clone, Copy, Debug, PartialEq, Eq)]
pub enum TaskFault {
    /// The domain is.
    Domain(ReadFault),
    /// The problem is, with a domain that is read.
    Problem(ReadFault),
}

/// The task of a domain text and a problem text in a dialect. Its tables hash with the seed.
///
/// Both texts are read as [`read_domain_in`] and [`read_problem_in`] do. Then the quantifiers of each action, and those of the goal, may have at most 16,777,216
/// bindings together (this validator's choice): [`first_excess`] finds the first that have more. The fault is [`FaultKind::TooMany`] at the variable with which they
/// do, and only then the text is read once more, to find that variable. The faults of the bytes and parentheses of the domain take no memory to find, and are
/// always reported.
pub fn read_task(
    alloc: Global,
    seed: Seed,
    dialect: Dialect,
    domain: &[u8],
    problem: &[u8],
) -> Result<CostedTask, TaskFault>
    ensures task { IfOk result (λ task. task_in dialect domain.now problem.now ≡ Some task) }
    ensures refusal { IfErr result (λ fault. kind_of fault ≢ FaultKind.OutOfMemory → task_in dialect domain.now problem.now ≡ None) }
    ensures cause { IfErr result (λ fault. kind_of fault ≢ FaultKind.OutOfMemory → CallsFor dialect domain.now problem.now fault) }
    ensures domain_text { (e : read_fault.ReadFault) → text_fault domain.now ≡ Some e → result ≡ Err (Domain e) }
{
    let read = match read_domain_in(alloc, seed, dialect, domain) {
        Ok(read) => read,
        Err(fault) => return Err(TaskFault::Domain(fault)),
    };
    let task = match read_problem_in(alloc, dialect, read, problem) {
        Ok(task) => task,
        Err(fault) => return Err(TaskFault::Problem(fault)),
    };
    match first_excess(alloc, &task.task) {
        Ok(None) => Ok(task),
        Ok(Some(excess)) => Err(excess_fault(alloc, dialect, domain, problem, excess)),
        Err(AllocError) => Err(TaskFault::Problem(ReadFault::at(FaultKind::OutOfMemory, 0, 0))),
    }
}

/// The fault of a task that passes the limit of bindings.
fn excess_fault(
    alloc: Global,
    dialect: Dialect,
    domain: &[u8],
    problem: &[u8],
    excess: Excess,
) -> TaskFault
    requires domain { text_fault domain.now ≡ None }
    requires problem { text_fault problem.now ≡ None }
    ensures { IsFaultOfExcess excess result }
{
    match excess.whose {
        Whose::Action(number) => {
            let found = action_fault(alloc, dialect, domain, number, excess.variable);
            TaskFault::Domain(found)
        }
        Whose::Goal => TaskFault::Problem(goal_fault(alloc, dialect, problem, excess.variable)),
    }
}
