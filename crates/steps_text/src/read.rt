//! A whole steps file.
ghost use Rattle.std.specs.Prelude.{◌≡◌, ◌+◌, ◌<◌, ◌^◌, ◌++◌, [], ◌∷◌, None, length, map, IfOk, IfErr, OnOk, ◌≤◌};
ghost use Rattle.intake_core.specs.Asked.{asked};
ghost use Rattle.steps_text.specs.LinesLeft.{shown_line};
ghost use Rattle.steps_text.specs.Meanings.{shown};
ghost use Rattle.steps_text.specs.StepsTexts.{most_planners, most_slots, kept_lines, step_fault, steps_by, steps_of, steps_text};
ghost use Rattle.steps_text.specs.Telling.{tells, tells_fault, tells_steps};

use crate::fault::{StepsFault, StepsFaultKind};
use crate::line::Meaning;
use crate::lines::{KeptLine, Lines};
use intake_core::StepsToRun;
use std::alloc::Global;

/// The most planners that an intake may have.
const MOST_PLANNERS: u32 = 64;

/// The most slots that an intake may have.
const MOST_SLOTS: u32 = 65_536;

/// The most steps of a file.
const MOST_STEPS_OF_AN_INTAKE: usize = 100_000;

/// What a steps file asks for.
#[derive(Drop)]
pub struct StepsText {
    /// How many planners the intake has.
    pub planners: u32,
    /// How many slots it has.
    pub slots: u32,
    /// The steps to be run on it, in order.
    pub steps: StepsToRun,
}

/// Why a steps file was not read.
#[derive(Drop)]
pub enum StepsRefusal {
    /// A line is faulty.
    Fault(StepsFault),
    /// Memory ran out.
    OutOfMemory,
}

/// The steps that a text asks for, and the size of the intake for which they are meant; or else its first faulty line.
///
/// The text is read once. Takes memory for the steps and their plans, and nothing for lines that are skipped.
#[tactic(auto, unfolding(crate::specs::StepsTexts::steps_text))]
pub fn read_steps(alloc: Global, text: &[u8]) -> Result<StepsText, StepsRefusal>
    requires { length text.now < 2 ^ 31 }
    ensures told { tells result (steps_text text.now) }
    ensures limits { IfOk result (λ read. (read.planners ≤ most_planners) × (read.slots ≤ most_slots)) }
{
    let mut lines = Lines::new(text);
    match lines.next_kept(alloc) {
        Ok(Some(first)) => read_behind(alloc, first, lines),
        Ok(None) => Err(fault(StepsFaultKind::Expected, lines.taken())),
        Err(_) => Err(StepsRefusal::OutOfMemory),
    }
}

/// What a text holds if this is its first line that is not skipped.
fn read_behind(alloc: Global, first: KeptLine, lines: Lines<'_>) -> Result<StepsText, StepsRefusal>
    ensures told { tells result (steps_by first.number (shown first.meaning) (kept_lines (lines.entry.taken + 1) lines.entry.left)) }
    ensures limits { IfOk result (λ read. (read.planners ≤ most_planners) × (read.slots ≤ most_slots)) }
{
    match first.meaning {
        Meaning::Desk { planners, slots } if planners <= MOST_PLANNERS && slots <= MOST_SLOTS => {
            let steps = read_all(alloc, lines)?;
            Ok(StepsText {
                planners,
                slots,
                steps,
            })
        }
        Meaning::Desk { .. } => Err(fault(StepsFaultKind::TooMany, first.number)),
        Meaning::Step(_) | Meaning::Strange => {
            Err(fault(StepsFaultKind::Expected, first.number))
        }
    }
}

/// The steps of lines that all have to be steps.
fn read_all(alloc: Global, mut lines: Lines<'_>) -> Result<StepsToRun, StepsRefusal>
    ensures { tells_steps result (kept_lines (lines.entry.taken + 1) lines.entry.left) }
{
    let mut steps = StepsToRun::new(alloc);
    'lines: loop {
        match lines.next_kept(alloc) {
            Ok(Some(line)) => add(&mut steps, line)?,
            Ok(None) => return Ok(steps),
            Err(_) => return Err(StepsRefusal::OutOfMemory),
        }
    }
}

/// Adds the step of a line.
fn add(steps: &mut StepsToRun, line: KeptLine) -> Result<(), StepsRefusal>
    ensures added { OnOk result (step_fault (length steps.old) (shown_line line) ≡ None × map asked steps.new ≡ map asked steps.old ++ steps_of (shown_line line ∷ [])) }
    ensures fault { IfErr result (λ refusal. tells_fault refusal (step_fault (length steps.old) (shown_line line))) }
{
    let KeptLine { number, meaning } = line;
    let Meaning::Step(step) = meaning else {
        return Err(fault(StepsFaultKind::Expected, number));
    };
    if steps.len() >= MOST_STEPS_OF_AN_INTAKE {
        return Err(fault(StepsFaultKind::TooMany, number));
    }
    match steps.push(step) {
        Ok(()) => Ok(()),
        Err(_) => Err(StepsRefusal::OutOfMemory),
    }
}

fn fault(kind: StepsFaultKind, line: u32) -> StepsRefusal
    ensures { result ≡ StepsRefusal.Fault (record { kind = kind; line = line }) }
{
    StepsRefusal::Fault(StepsFault { kind, line })
}
