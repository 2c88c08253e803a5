//! Tests of what no command line reaches: gates that hold jobs, outlets and inlets that fail, runs without planners, and other seeds.
//!
//! ```text
//! cd crates/judge_tests
//! rt test                  # proves and runs them
//! ```
//!
//! What a command line can show is a case of `tests/cases`. This crate has only tests, so that no other crate has to be proved a second time with
//! its tests. Calls at a bench are tested in `bench_tests`.
#![tactic(auto)]

#[cfg(test)]
mod fixtures;
#[cfg(test)]
mod gates;
#[cfg(test)]
mod inlets;
#[cfg(test)]
mod outlets;
#[cfg(test)]
mod seeds;
