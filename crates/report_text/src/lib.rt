//! The text of what a judge answers: conditions, steps, verdicts and costs, and the lines of a report.
//!
//! ```text
//! let mut text = Text::new(alloc);                     // bytes that are made piece by piece
//! push_head(&mut text, Format::Lines, &task.task)?;    // domain lamp problem lamp-1
//! push_plan_in(&mut text, Format::Lines, &task.task, b"planner", 1, &finding)?;    // planner 1 valid 1
//! ```
//!
//! Each function adds its piece at the end of a [`Text`], and its contract says which. The only error is that memory runs out.
#![tactic(auto)]

mod conditions;
mod costs;
mod escapes;
mod format;
mod json;
mod lines;
mod literals;
mod notation;
mod render;
mod table;
mod text;
mod variables;

pub use conditions::push_condition;
pub use costs::push_cost;
pub use escapes::push_json_string;
pub use format::Format;
pub use lines::{push_head, push_plan_in, push_summary_in};
pub use render::{push_finding, push_step};
pub use text::Text;
