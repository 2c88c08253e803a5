//! Plan texts: splits a planner's file into its plans, and reads each plan.
//!
//! ```text
//! let mut parts = Parts::new(b"(light)\n---\n(light) (off)\n");
//! parts.next()                                          // Some: the bytes `(light)\n`
//! parts.next()                                          // Some: the bytes `(light) (off)\n`
//! parts.next()                                          // None
//! let plan = read_plan(alloc, b"(light) (off)\n")?;     // Plan::Steps, of two steps
//! let plan = read_plan(alloc, b"(light\n")?;            // Plan::Unreadable { line: 2 }, since the text ends inside a step
//! ```
//!
//! A *bundle* is the file of one planner. Lines of three dashes, followed by nothing but spaces, tabs and CRs, separate its plans. [`Parts`]
//! gives them as slices; [`part_from`] finds where one ends and the next begins, for callers that keep offsets instead of slices.
//!
//! A *plan text* is one of these parts, in the format that planners usually write:
//!
//! ```text
//! ; a comment ends with its line
//! 0.0: (pick-up b) [1]
//! 0.50: (stack b a) [1]
//! (unstack b a)
//! ```
//!
//! - A step is the name of an action and the names of objects, in parentheses.
//! - The word before a step may be its stamp, a number and `:`. A stamp must be a larger number than all stamps before it, so `1:` and
//!   `1.0:` can't be in the same text.
//! - The word after a step may be a number in brackets, which is ignored.
//! - A number has 1 to 9 digits, and may have a point followed by 1 to 9 more.
//! - Line breaks and case don't matter. A plan has at most 1,000,000 steps.
//!
//! [`read_plan`] reads each token once. The words of the steps are kept in lower case, and nothing else is, so stamps and numbers take no
//! memory. A text that is no plan text gives [`Plan::Unreadable`](strips_task::Plan) with the line of its first fault: a bad byte, a token that
//! no plan text can have after the tokens before it, or the end of a text that ends too early.
//!
//! [`PlanSteps`] walks over the steps of a plan text, keeps none of them and takes no memory. It is for callers that do something at each step,
//! such as judging it, and need no plan. [`PlanSteps::next_step`] reads the next step and gives its words, or says that the text is at its end
//! or unreadable. If the step is written as plain names with single spaces, it gives these bytes too, as a key. A caller that remembers
//! what a key means gets the next key unread from [`PlanSteps::next_range`], and passes a step whose key it knows with [`PlanSteps::skip`].
//! As long as each step is taken by one of these two calls, the result at the end is the plan of the text.
//!
//! The contract of [`read_plan`] refers to a definition that follows the code. [`laws`] says what that definition means: the steps are those
//! of the grammar (`specs/PlanGrammar.antt`), and the fault is where the text leaves the grammar (`specs/PlanFaults.antt`).
#![tactic(auto)]

mod between;
mod compare;
pub mod laws;
mod marked;
mod parts;
mod read;
mod step_at;
mod walk;
mod want;

pub use compare::{is_plan_of, same_plans};
pub use parts::{PartEnd, Parts, part_from};
pub use pddl_tokens::ParenRange;
pub use read::read_plan;
pub use step_at::{FoundStep, find_step_at};
pub use walk::{Onward, PlanSteps, StepWords, TextStep};
