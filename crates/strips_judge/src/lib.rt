//! The judge: checks whether a plan solves a task, and if not, says why.
//!
//! ```text
//! match judge(alloc, &task, &plan)? {
//!     Verdict::Valid { steps } => ..,            // each step is applicable, and the goal holds at the end
//!     Verdict::Fails { step, why } => ..,        // the first step that is not applicable, counted from 1
//!     Verdict::Goal { missing } => ..,           // the conditions of the goal that do not hold at the end
//!     Verdict::Unreadable { line } => ..,        // the plan's text could not be read
//! }
//! ```
//!
//! [`judge`] takes a [`Task`] and a [`Plan`] and gives a [`Verdict`]. `specs/Verdict.antt` defines the verdict of a plan, and the functions of
//! [`laws`] tie it to validity in the words of PDDL; those of [`reasons`] say that the reason in a verdict is right.
//!
//! To judge many plans of one task, keep a [`NumberedState`] for all of them, and take each step with [`take_step`]. The crate `step_codes` takes steps
//! faster that are known by numbers.
//!
//! Tasks and plans come from the crate `strips_task`. Its types are re-exported here, so users need to name only this crate.
#![tactic(auto)]

mod arguments;
mod atom_keys;
mod candidates;
mod conditions;
mod effects;
mod evaluation;
mod grounding;
mod judging;
pub mod laws;
mod numbers;
pub mod reasons;
mod scratch;
mod single_cells;
mod state;
mod task_index;
mod unmet;
mod verdict;

pub use arguments::first_ill_typed;
pub use candidates::Candidates;
pub use effects::{Arguments, Quantified, apply};
pub use evaluation::{equality_holds, have_objects, holds, types_of};
pub use judging::{judge, judge_goal, take_step};
pub use numbers::{clear_all, set_all};
pub use scratch::{Changes, Room, Scratch};
pub use state::NumberedState;
pub use strips_task::{
    Action, Alternatives, Atom, AtomList, Formula, InitialAtoms, MOST_STEPS, Name, NameKey,
    NameTable, Node, OpenSteps, Pattern, Plan, Seed, Seq, ShortSeq, StepList, StepRange, StepText,
    StepView, Task, TaskParts, Term, TypeList, VariableGroup, WordList,
};
pub use task_index::TaskIndex;
pub use unmet::Unmet;
pub use verdict::{Verdict, Why};
