//! Calls of the libraries that may be refused memory.
//!
//! ```text
//! crates/refused_memory/out/refused_memory replay      # runs the row `replay` once
//! crates/refused_memory/out/refused_memory             # runs all rows once
//! ```
//!
//! A row makes a few calls and checks what they answer. The program writes nothing. Its exit status says what came of the calls:
//!
//! - 0: each call had its memory and gave the right answer.
//! - 1: something was wrong.
//! - 2: no row has this name.
//! - 3: a call was refused memory or a thread, said so, and left everything as it must.
//!
//! `bin/refuse_allocations` runs the rows with each allocation refused in turn.
#![tactic(auto)]

mod benches;
mod desks;
mod frugal;
mod frugal_benches;
mod frugal_desks;
mod names;
mod page;
mod rows;
mod running;
mod seen;
mod tasks;
mod texts;

use crate::rows::{run_all, run_row};
use crate::seen::status;
use std::env;
use std::io::ErrorKind;
use std::process::ExitCode;

fn main(rt: HostRuntime) -> ExitCode {
    let mut words = match env::args(&rt) {
        Ok(words) => words,
        Err(error) if error.kind() == ErrorKind::OutOfMemory => return ExitCode::from(3),
        Err(_) => return ExitCode::from(2),
    };
    let seen = match words.nth(1) {
        Some(name) => run_row(&rt, name.as_str()),
        None => run_all(&rt),
    };
    match seen {
        Some(seen) => ExitCode::from(status(seen)),
        None => ExitCode::from(2),
    }
}
