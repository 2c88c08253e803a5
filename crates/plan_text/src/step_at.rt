//! One step of a plan text.

ghost use Rattle.plan_text.specs.PlanReading.{plan_of};
ghost use Rattle.plan_text.specs.StepAt.{step_at, IsWhere};

use crate::walk::{PlanSteps, StepWords, TextStep};

/// A step where it is written in a plan text.
#[derive(Drop)]
pub struct FoundStep<'a> {
    /// Its words.
    pub words: StepWords<'a>,
    /// The bytes between its parentheses, if they are its names with a single space between each two.
    pub key: Option<&'a [u8]>,
}

/// Finds the step of a plan text with this index, counted from 0. An unreadable plan has none.
///
/// The text is read to its end. Takes no memory.
pub fn find_step_at(text: &[u8], index: usize) -> Option<FoundStep<'_>>
    ensures { IsWhere result (step_at (plan_of text.now) index) }
{
    let mut walk = PlanSteps::new(text)?;
    let mut found = None;
    'steps: loop {
        let is_here = walk.count() == index;
        match walk.next_step() {
            TextStep::Step { words, key } => {
                if is_here {
                    found = Some(FoundStep { words, key });
                }
            }
            TextStep::End => return found,
            TextStep::Unreadable { line: _ } => return None,
        }
    }
}
