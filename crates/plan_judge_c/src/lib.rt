//! The judge for programs in C, and in every language that calls C.
//!
//! Texts come in as bytes with a length, and the answer goes into a buffer of the caller's. Each export states the answer of the library for these bytes. What C
//! has to keep to, `c/plan_judge.h` says.
//!
//! [`judging`] has the call that judges, [`explaining`] the one that explains, and [`keeping`] those that keep a task between calls. What they take is in
//! `inputs`, and what they give in the crate [`c_values`]; `refusing` says why texts are refused. A task that is kept is in `kept`, as the pointer of its box.
#![tactic(auto)]

pub mod explaining;
mod inputs;
pub mod judging;
pub mod keeping;
mod kept;
mod refusing;
