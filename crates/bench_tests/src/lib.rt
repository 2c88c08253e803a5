//! Tests of the bench where plans are judged: calls by one thread that has all seats, seats in threads of their own, and plans that come in while
//! others are judged.
//!
//! ```text
//! cd crates/bench_tests
//! rt test                  # proves and runs them
//! ```
//!
//! No command line shows which thread does what, so these are tests and no cases of `tests/cases`. They need the bench and the readers alone. What
//! needs the whole program is in `judge_tests`.
#![tactic(auto)]

#[cfg(test)]
mod benches;
#[cfg(test)]
mod intakes;
#[cfg(test)]
mod lamp;
