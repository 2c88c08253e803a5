//! What a plan costs: the initial value of `total-cost` and all that the plan's steps add to it.
//!
//! ```text
//! let answer = assess(alloc, &task, &plan)?;       // task: a CostedTask
//! answer.verdict                                   // Verdict::Valid { steps: 2 }
//! answer.cost                                      // Cost::Billionths(3_500_000_000): the plan costs 3.5
//! let kept = CompactCost::new(answer.cost);        // the same cost in half the memory
//! kept.get()                                       // Cost::Billionths(3_500_000_000)
//! ```
//!
//! Actions may increase `(total-cost)`, by numbers or by values that the problem gives to functions (PDDL 2.1, Fox and Long 2003,
//! section 4). A reader fills [`Costs`], and a task with them is a [`CostedTask`]; both are re-exported from the crate `strips_task`.
//! [`plan_cost`] adds up what the steps of a plan cost. [`assess`] judges a plan, and adds up its cost if it is valid. No condition can read
//! a cost, so the verdict is that of the task without its costs.
#![tactic(auto)]

mod assessments;
mod compact;
mod costs;
mod counting;
pub mod laws;
mod objects;

pub use assessments::{Assessment, assess};
pub use compact::CompactCost;
pub use costs::Cost;
pub use counting::{CostScratch, numbered_cost, plan_cost, step_cost};
pub use strips_task::{
    Amount, CostedTask, Costs, FunctionValues, Given, Increases, MOST_INCREASES,
};
