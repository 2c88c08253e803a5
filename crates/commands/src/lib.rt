//! The command line of the program `plan_judge`: what its words ask for, the files that it reads, and what goes out.
//!
//! ```text
//! main_with(rt, seed, &words, &Files::new(rt), &mut out, &mut err)    // the exit status
//! ```
//!
//! [`program::main_with`] is all that `main` does, over sources and outlets that are passed to it. What `judge` and `replay` answer comes from
//! `judge_engine`, and what `explain` and `validate` answer from `explanations`.
#![tactic(auto)]

pub mod command;
mod explain;
mod messages;
pub mod program;
mod requests;
