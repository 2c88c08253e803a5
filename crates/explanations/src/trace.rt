//! What each step of a plan changes.

ghost use Rattle.std.specs.Prelude.{◌<◌, length};

use crate::effects::Change;
use crate::page::Page;
use crate::plans::PlanAt;
use crate::records::{push_atom_list, push_cost_member, push_step_record};
use crate::world::World;
use plan_cost::{Cost, CostScratch, CostedTask, step_cost};
use plan_text::{PlanSteps, StepWords, TextStep};
use std::alloc::{AllocError, Global};
use strips_task::{Atom, OpenSteps, StepView, Task};

/// What a walk over the steps of a plan keeps.
struct Trace<'t> {
    task: &'t CostedTask,
    world: World<'t>,
    step: OpenSteps,
    scratch: CostScratch,
    /// What the steps cost so far.
    cost: Cost,
}

impl Drop for Trace<'_> {
    fn drop(self) {
        let Self {
            task: _,
            world: _,
            step: _,
            scratch: _,
            cost: _,
        } = self;
    }
}

/// Adds what each of the first steps of a plan changes.
pub(crate) fn push_trace(
    page: &mut Page,
    task: &CostedTask,
    plan: PlanAt<'_>,
    most: usize,
) -> Result<(), AllocError> {
    match PlanSteps::new(plan.part.text()) {
        Some(mut walk) => {
            let mut trace = Trace::new(page.alloc(), task);
            trace.push_steps(page, plan, &mut walk, most)
        }
        None => Ok(()),
    }
}

impl<'t> Trace<'t> {
    fn new(alloc: Global, task: &'t CostedTask) -> Self {
        Trace {
            task,
            world: World::new(alloc, &task.task),
            step: OpenSteps::new(alloc),
            scratch: CostScratch::new(alloc),
            cost: match &task.costs {
                Some(costs) => Cost::Billionths(u128::from(costs.initial_cost(alloc))),
                None => Cost::NotCounted,
            },
        }
    }

    /// Adds the steps of a walk until it has come to `most` of them.
    fn push_steps(
        &mut self,
        page: &mut Page,
        plan: PlanAt<'_>,
        walk: &mut PlanSteps<'_>,
        most: usize,
    ) -> Result<(), AllocError> {
        'steps: while walk.count() < most {
            match walk.next_step() {
                TextStep::Step { words, key: _ } => {
                    self.read(&words)?;
                    self.push_step(page, plan, walk.count())?;
                }
                TextStep::End => return Ok(()),
                TextStep::Unreadable { line: _ } => return Ok(()),
            }
        }
        Ok(())
    }

    /// Reads the words of the next step.
    fn read(&mut self, words: &StepWords<'_>) -> Result<(), AllocError>
        requires { 0 < length words.now }
    {
        self.step.clear();
        words.push_to(&mut self.step)
    }

    /// Adds the step that was read, and what it changes.
    fn push_step(
        &mut self,
        page: &mut Page,
        plan: PlanAt<'_>,
        number: usize,
    ) -> Result<(), AllocError> {
        if self.step.len() == 0 {
            return Ok(());
        }
        let step = self.step.get(0);
        if page.is_json() {
            push_step_record(page, plan, number, &step);
        } else {
            page.say("  ");
            page.number(number);
            page.say(" ");
            page.step_view(&step);
            page.say("\n");
        }
        push_changes(page, &mut self.world, step, number)?;
        self.cost = cost_with(self.task, self.cost, step, &mut self.scratch)?;
        push_cost_so_far(page, self.cost);
        Ok(())
    }
}

/// Adds what the steps cost so far, and the end of the step's record.
fn push_cost_so_far(page: &mut Page, cost: Cost) {
    if page.is_json() {
        push_cost_member(page, cost);
        page.say("}\n");
        return;
    }
    if cost != Cost::NotCounted {
        page.say("    ");
        page.cost(cost);
        page.say(" so far\n");
    }
}

/// The cost of a plan with one more step.
fn cost_with(
    task: &CostedTask,
    cost: Cost,
    step: StepView<'_>,
    scratch: &mut CostScratch,
) -> Result<Cost, AllocError> {
    let (Some(costs), Cost::Billionths(before)) = (&task.costs, cost) else {
        return Ok(cost);
    };
    Ok(match step_cost(&task.task, costs, step, scratch)? {
        Some(more) => Cost::Billionths(before.saturating_add(more)),
        None => Cost::Undefined,
    })
}

/// Takes a step in the world, and adds the atoms that it makes false and true.
fn push_changes(
    page: &mut Page,
    world: &mut World<'_>,
    step: StepView<'_>,
    number: usize,
) -> Result<(), AllocError> {
    let changes = world.changes_of(step)?;
    push_atoms(page, world.task(), "deletes", changes.deleted.as_slice());
    push_atoms(page, world.task(), "adds", changes.added.as_slice());
    world.change(number, changes)
}

/// Adds a line with atoms that a step changes, if there are any.
fn push_atoms(page: &mut Page, task: &Task, change: &str, atoms: &[Change<'_>]) {
    let mut shown = false;
    for Change { atom, .. } in atoms {
        push_change(page, task, change, shown, atom);
        shown = true;
    }
    push_end(page, change, shown);
}

/// Adds an atom that a step changes, the first of which begins a list.
fn push_change(page: &mut Page, task: &Task, change: &str, shown: bool, atom: &Atom) {
    if page.is_json() {
        push_list_start(page, change, shown);
        push_atom_list(page, task, atom);
        return;
    }
    if shown {
        page.say(" ");
    } else {
        page.say("     ");
        page.say(change);
        page.say(" ");
    }
    page.atom(task, atom);
}

/// Begins a member of a record with a list, or goes on with it.
fn push_list_start(page: &mut Page, name: &str, shown: bool) {
    if shown {
        page.say(",");
        return;
    }
    page.say(",\"");
    page.say(name);
    page.say("\":[");
}

/// Ends the list of the atoms that a step changes.
fn push_end(page: &mut Page, change: &str, shown: bool) {
    if page.is_json() {
        if !shown {
            push_list_start(page, change, false);
        }
        page.say("]");
        return;
    }
    if shown {
        page.say("\n");
    }
}
