//! Which steps of a plan changed atoms last.
//!
//! The steps of a text are taken once more, and after each step the atoms that are watched are checked for changes.
ghost use Rattle.std.specs.Prelude.{◌≡◌, ◌<◌, [], List, None, Option, Some, length, IfOk};
ghost use Rattle.formulas.specs.declared.atoms.Atom.{Atom};
ghost use Rattle.strips_task.specs.declared.steps.StepText.{StepText};
ghost use Rattle.strips_task.specs.declared.tasks.TaskParts.{TaskParts};
ghost use Rattle.text_judge.specs.Judging.{HasTaken};
ghost use Rattle.text_judge.specs.History.{AreLastChanges, state_after};
ghost use Rattle.text_judge.specs.Passes.{with_next};
ghost use Rattle.text_judge.specs.Watches.{AreWatched, EndsWatch, IsWatched, WatchTogether};

use crate::pass::{Passed, advance};
use crate::step_judge::Judge;
use plan_text::PlanSteps;
use std::alloc::{AllocError, Global};
use strips_task::{Atom, OpenSteps};

/// What is kept of an atom that is watched: whether it is true, and which step changed that last, counted from 1.
#[derive(Clone, Copy)]
pub(crate) struct Watch {
    pub(crate) is_true: bool,
    pub(crate) last: Option<usize>,
}

/// Begins to watch atoms, before the first step.
pub(crate) fn watch_all(
    alloc: Global,
    judge: &Judge<'_>,
    atoms: &[Atom],
) -> Result<Vec<Watch>, AllocError>
    requires { HasTaken judge.now [] }
    ensures one_each { IfOk result (λ watches. length watches.items ≡ length atoms.now) }
    ensures watched { IfOk result (λ watches. AreWatched judge.now.task.task [] atoms.now watches.items) }
{
    let mut watches = Vec::with_capacity(alloc, atoms.len())?;
    for atom in atoms {
        watches.push(Watch {
            is_true: judge.holds(atom),
            last: None,
        })?;
    }
    Ok(watches)
}

/// Takes the steps of a text one after the other, as `pass` does, and notes after each whether the atoms have changed.
pub(crate) fn watch_steps(
    alloc: Global,
    judge: &mut Judge<'_>,
    words: &mut OpenSteps,
    walk: &mut PlanSteps<'_>,
    atoms: &[Atom],
    watches: &mut [Watch],
) -> Result<Passed, AllocError>
    requires { WatchTogether walk.old judge.old atoms.now watches.old }
    ensures task { judge.new.task ≡ judge.old.task }
    ensures text { walk.new.text ≡ walk.old.text }
    ensures passed { IfOk result (λ passed. EndsWatch passed walk.new judge.new atoms.now watches.new) }
{
    'steps: loop {
        if let Some(passed) = advance(alloc, judge, words, walk)? {
            return Ok(passed);
        }
        note(judge, atoms, watches);
    }
}

/// Notes whether the atoms have changed, after the same steps as before or one more.
fn note(judge: &Judge<'_>, atoms: &[Atom], watches: &mut [Watch])
    requires { length watches.old ≡ length atoms.now }
    ensures watched { (steps : List StepText) (next : Option StepText) → HasTaken judge.now (with_next steps next)
        → AreWatched judge.now.task.task steps atoms.now watches.old → AreWatched judge.now.task.task (with_next steps next) atoms.now watches.new }
{
    let count = judge.steps();
    for index in 0..atoms.len() {
        watches[index] = noted(watches[index], judge.holds(&atoms[index]), count);
    }
}

/// What is kept of an atom, by whether it is true after `count` steps.
fn noted(watch: Watch, is_true: bool, count: usize) -> Watch
    ensures { (parts : TaskParts) (steps : List StepText) (next : Option StepText) (atom : Atom) → IsWatched parts steps atom watch
        → is_true ≡ state_after parts (with_next steps next) (length (with_next steps next)) atom → count ≡ length (with_next steps next)
        → IsWatched parts (with_next steps next) atom result }
{
    if is_true == watch.is_true {
        return watch;
    }
    Watch {
        is_true,
        last: Some(count),
    }
}

/// The last changes of the atoms that were watched.
pub(crate) fn changes_of(alloc: Global, watches: &[Watch]) -> Result<Vec<Option<usize>>, AllocError>
    ensures one_each { IfOk result (λ changes. length changes.items ≡ length watches.now) }
    ensures changes { IfOk result (λ changes. (parts : TaskParts) (steps : List StepText) (atoms : List Atom) → AreWatched parts steps atoms watches.now
        → AreLastChanges parts steps atoms changes.items) }
{
    let mut changes = Vec::with_capacity(alloc, watches.len())?;
    for watch in watches {
        changes.push(watch.last)?;
    }
    Ok(changes)
}
