//! The world after some steps of a plan.

ghost use Rattle.std.specs.Prelude.{◌<◌, length};

use crate::world::World;
use plan_text::{PlanSteps, StepWords, TextStep};
use std::alloc::{AllocError, Global};
use strips_task::{OpenSteps, Task};

/// The world after the first `most` steps of the plan of a text, or after all of them if there are fewer.
pub(crate) fn world_after<'t>(
    alloc: Global,
    task: &'t Task,
    text: &[u8],
    most: usize,
) -> Result<World<'t>, AllocError> {
    let mut world = World::new(alloc, task);
    if let Some(mut walk) = PlanSteps::new(text) {
        take_steps(&mut world, &mut walk, most)?;
    }
    Ok(world)
}

/// Takes the steps of a walk until it has come to `most` of them.
fn take_steps(
    world: &mut World<'_>,
    walk: &mut PlanSteps<'_>,
    most: usize,
) -> Result<(), AllocError> {
    let mut step = OpenSteps::new(world.alloc());
    'steps: while walk.count() < most {
        match walk.next_step() {
            TextStep::Step { words, key: _ } => {
                read(&mut step, &words)?;
                take(world, &step, walk.count())?;
            }
            TextStep::End => return Ok(()),
            TextStep::Unreadable { line: _ } => return Ok(()),
        }
    }
    Ok(())
}

/// Reads the words of a step.
fn read(step: &mut OpenSteps, words: &StepWords<'_>) -> Result<(), AllocError>
    requires { 0 < length words.now }
{
    step.clear();
    words.push_to(step)
}

/// Takes the step that was read, which has a number in the plan.
fn take(world: &mut World<'_>, step: &OpenSteps, number: usize) -> Result<(), AllocError> {
    if step.len() == 0 {
        return Ok(());
    }
    let changes = world.changes_of(step.get(0))?;
    world.change(number, changes)
}
