//! The command line of the program `plan_judge`: which words are accepted, and what they say.
//!
//! ```text
//! program(alloc)?.try_get_matches_from(words)    // whether clap accepts the words; if not, why, or the help
//! has_command(words, "judge")                    // true
//! dialect_asked(arguments(words))                // Some(Dialect::Ipc)
//! ```
//!
//! `clap` decides which command lines are accepted. What an accepted one says is read from its words, by functions whose contracts say what they answer.
#![tactic(auto)]

mod accepted;
mod help;
mod options;
mod words;

pub use accepted::program;
pub use options::{can_show, dialect_asked, format_asked, is_plain};
pub use words::{arguments, asks_for_help, has_command, operands, value_of};

/// The version of the program by the rules of semantic versioning. `--version` prints it; the manual page and the packages take it from here.
const VERSION: &str = "0.3.0";
