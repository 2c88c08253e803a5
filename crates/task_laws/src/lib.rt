//! Laws of whole tasks: each is the contract of a function that does nothing.
//!
//! ```text
//! pub fn quantifiers_may_be_written_out(_task: &Task, _plan: &Plan)
//!     ensures alike { QuantifiersMayBeWrittenOut _task.now _plan.now }
//!     ensures verdict { VerdictIsWrittenOut _task.now _plan.now }
//! {}
//! ```
//!
//! The prover accepts this function only if its laws hold for every task and every plan. `specs/Laws.antt` defines them.
//!
//! The laws say that a task may be written in another way and judges plans alike: with each quantifier written out over the objects, or with each `imply`
//! written as an `or`. They also say that a task of literals judges plans as STRIPS does.
//!
//! No program calls these functions. They are a crate of their own so that after a change of a law nothing else has to be proved again.
#![tactic(auto)]

ghost use Rattle.task_laws.specs.Laws.{ImplyMayBeWrittenAsOr, LackLiterals, LiteralsAreJudgedAsStrips, NoImplyIsLeft, NoQuantifierIsLeft, QuantifiersMayBeWrittenOut, StepsDeleteAndAdd, VerdictIsWithoutImply, VerdictIsWrittenOut, WithoutImplyIsWellFormed, WrittenOutIsWellFormed};

use strips_task::{Plan, Task};

/// A task, and the same task with each quantifier written out over the objects (`exists` as an `or`, `forall` as an `and`), judge every plan alike: it is
/// valid for both or for neither, first fails at the same step, or misses both goals. The reason is the same too, and where conditions that do not hold are
/// listed, they are listed as they are written out.
pub fn quantifiers_may_be_written_out(_task: &Task, _plan: &Plan)
    ensures alike { QuantifiersMayBeWrittenOut _task.now _plan.now }
    ensures verdict { VerdictIsWrittenOut _task.now _plan.now }
{}

/// A task with each quantifier written out is a task: if its parts are well formed, so are they when they are written out.
pub fn written_out_is_well_formed(_task: &Task)
    ensures { WrittenOutIsWellFormed _task.now }
{}

/// A formula or an effect with its quantifiers written out has none.
pub fn no_quantifier_is_left()
    ensures { NoQuantifierIsLeft }
{}

/// A task, and the same task with each `(imply a b)` written as `(or (not a) b)`, judge every plan alike. The reason is the same too, and where conditions
/// that do not hold are listed, they are listed as they are written then.
pub fn imply_may_be_written_as_or(_task: &Task, _plan: &Plan)
    ensures alike { ImplyMayBeWrittenAsOr _task.now _plan.now }
    ensures verdict { VerdictIsWithoutImply _task.now _plan.now }
{}

/// A task with each `imply` written as an `or` is a task too.
pub fn without_imply_is_well_formed(_task: &Task)
    ensures { WithoutImplyIsWellFormed _task.now }
{}

/// A formula or an effect with each `imply` written as an `or` has none.
pub fn no_imply_is_left()
    ensures { NoImplyIsLeft }
{}

/// In a task of literals, the conditions that do not hold in a state are the literals that are not satisfied there: atoms that are not in the state,
/// negated atoms that are, equalities of two objects, and negated equalities of an object and itself.
pub fn literals_are_lacking(_task: &Task)
    ensures { LackLiterals _task.now }
{}

/// In a task of literals, the state after a step is the state minus the deletes of its action, union the adds.
pub fn steps_delete_and_add(_task: &Task)
    ensures { StepsDeleteAndAdd _task.now }
{}

/// A task of literals judges a plan as STRIPS does: by atoms that are in a state or not, and by deletes and adds alone.
pub fn literals_are_judged_as_strips(_task: &Task, _plan: &Plan)
    ensures { LiteralsAreJudgedAsStrips _task.now _plan.now }
{}
