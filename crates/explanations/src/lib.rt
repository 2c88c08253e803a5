//! Explanations of what a judge answers: why a domain or a problem is refused, and why a plan fails.
//!
//! ```text
//! let domain = SourceText { name: b"domain.pddl", bytes };
//! let format = ExplanationFormat::Text;
//! let options = Options { dialect: Dialect::Strips, trace: false, lint: false, format, colors: false };
//! let explanation = explain(alloc, seed, options, domain, problem, &plans)?;
//! // explanation.text: `plans.txt:3:1: plan 1 fails at step 3, (load car a): 1 condition does not hold` and so on
//! // explanation.all_valid: whether the texts are read and every plan is valid
//! ```
//!
//! The text is for people who write planners and domains. Each piece names a file, a line and a column, shows that line with carets below the
//! faulty bytes, and says what to do next; for a condition that does not hold it names the step that changed it last. Which plans are valid is
//! decided by the judge of texts (`text_judge`). [`explain`] promises only that it agrees with that judge, and nothing more about the text.
//!
//! A run is read in `answers`. A refused text goes to `faults`, which says what is wrong, and to `hints` and `expected`, which say what to do: they
//! read what is around the fault (`scene`, `quantifiers`), and the names that the texts declare (`library`). A plan goes to `plans`: `causes` lists the
//! conditions that do not hold, `unreadable` says where a text stops being a plan, `comments` compares a planner's cost, and `trace` shows each step.
//!
//! `reasons` says why a condition does not hold, down to its atoms and the steps that changed them (`changes`). For that and for `trace`, the steps are taken
//! in a `world` (`walk`, `effects`), in which formulas are evaluated (`evaluation`, `choices`).
//!
//! All write on a `Page`, which passes a byte of a file on to a terminal as it is only if it is printable. In JSON, `records` writes the same messages
//! and hints as strings; `phrases` writes for scripts that know VAL. `lint` warns of what is probably not meant, by the `literals` of both texts.
#![tactic(auto)]

mod account;
mod answers;
mod atoms;
mod breaks;
mod causes;
mod changes;
mod choices;
mod comments;
mod connectives;
mod constructs;
mod effects;
mod evaluation;
mod expected;
mod faults;
mod forms;
mod formulae;
mod hints;
mod keywords;
mod library;
mod lint;
mod literals;
mod names;
mod outline;
mod page;
mod phrases;
mod plans;
mod positions;
mod quantifiers;
mod reasons;
mod records;
mod remarks;
mod requirements;
mod scene;
mod source;
mod steps;
mod support;
mod tokens;
mod trace;
mod unreadable;
mod unsupported;
mod walk;
mod world;

pub use answers::{Refused, explain};
pub use pddl_reader::Dialect;
pub use report_text::Text;
pub use source::{Explanation, ExplanationFormat, Options, Phrases, SourceText};
pub use strips_task::Seed;
