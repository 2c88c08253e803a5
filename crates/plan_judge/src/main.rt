//! The program `plan_judge`, which judges plans of classical planners against a domain and a problem in PDDL.
//!
//! ```text
//! $ bin/plan_judge judge --domain examples/lamp/domain.pddl --problem examples/lamp/problem.pddl examples/lamp/plan examples/lamp/twice
//! domain lamp problem lamp-1
//! examples/lamp/plan 1 valid 1
//! examples/lamp/plan plans 1 valid 1 best 1
//! examples/lamp/twice 1 fails at 2 (light): missing (dark)
//! examples/lamp/twice plans 1 valid 0 best -
//! ```
//!
//! The library `commands` does all the work. This crate hands it the real command line, files and outputs, and a random seed.
#![tactic(auto)]

use commands::program::{main_with, not_a_text, out_of_memory};
use judge_engine::Seed;
use judge_engine::inlet::Files;
use judge_engine::outlet::{Outlet, Sink};
use std::alloc::AllocError;
use std::env;
use std::env::Env;
use std::hash::RandomState;
use std::io::{ErrorKind, IsTerminal};
use std::process::ExitCode;
use std::random::RandomSource;

/// How many bytes a word of the command line has at most: Linux takes no longer ones.
const LONGEST_WORD: usize = 131_072;

fn main(rt: HostRuntime) -> ExitCode {
    let stderr = rt.stderr();
    let is_terminal = stderr.is_terminal();
    let mut err = Sink::new(stderr).on_terminal(is_terminal);
    let words = match env::args(&rt) {
        Ok(words) => words,
        Err(error) if error.kind() == ErrorKind::OutOfMemory => {
            return ExitCode::from(out_of_memory(&mut err));
        }
        Err(_) => return ExitCode::from(refuse_words(&rt, &mut err)),
    };
    let words: Vec<String> = match words.collect(rt.alloc()) {
        Ok(words) => words,
        Err(_) => return ExitCode::from(out_of_memory(&mut err)),
    };
    let stdout = rt.stdout();
    let is_terminal = stdout.is_terminal();
    let mut out = Sink::new(stdout).on_terminal(is_terminal);
    ExitCode::from(main_with(
        &rt,
        seed(&rt),
        words.as_slice(),
        &Files::new(&rt),
        &mut out,
        &mut err,
    ))
}

/// Says which word of the command line is no text, and answers the exit status.
fn refuse_words<R: Env + AllocGlobal, E: Outlet>(rt: &R, err: &mut E) -> u8 {
    match first_non_text(rt) {
        Ok(word) => not_a_text(rt.alloc(), word.as_slice(), err),
        Err(AllocError) => out_of_memory(err),
    }
}

/// The bytes of the first word of the command line that is not UTF-8, or none if each is.
fn first_non_text<R: Env + AllocGlobal>(rt: &R) -> Result<Vec<u8>, AllocError> {
    let mut buffer = vec![in rt.alloc(); 0u8; LONGEST_WORD]?;
    for number in 0..usize::MAX {
        let Ok(length) = rt.arg(number, buffer.as_mut_slice()) else {
            break;
        };
        if str::from_utf8(&buffer.as_slice()[..length]).is_err() {
            buffer.truncate(length);
            return Ok(buffer);
        }
    }
    buffer.clear();
    Ok(buffer)
}

/// A seed that only this run knows, or the fixed one if the system has no random bytes.
fn seed(rt: &impl RandomSource) -> Seed {
    match RandomState::new(rt) {
        Ok(keys) => Seed::new(&keys),
        Err(_) => Seed::fixed(),
    }
}
