//! The rows by their names.

use crate::benches::{bench_row, work_row};
use crate::desks::{desk_row, replay_row};
use crate::names::{name_row, push_row};
use crate::seen::Seen;
use crate::tasks::{blocks_row, cargo_row, lamp_row};
use crate::{frugal, frugal_benches, frugal_desks, running};
use std::alloc::Global;
use std::sync::Wait;
use std::thread::Threads;

/// The rows, in the order in which they are run.
const ROWS: &str =
    "name push lamp blocks cargo desk replay bench work run-1 run-2 judge-bytes-1 judge-bytes-2 replay-bytes text-made text-asked \
    task-made task-asked report-made report-asked desk-made desk-asked owner-made owner-asked seat-made seat-asked";

/// Runs a row, if there is one of this name.
pub(crate) fn run_row<R: AllocGlobal + Threads + Wait + Sync>(rt: &R, name: &str) -> Option<Seen> {
    match name {
        "run-1" => Some(running::run_row(rt, 1)),
        "run-2" => Some(running::run_row(rt, 2)),
        "judge-bytes-1" => Some(running::judge_row(rt, 1)),
        "judge-bytes-2" => Some(running::judge_row(rt, 2)),
        _ => alone(rt.alloc(), name),
    }
}

/// Runs a row that starts no thread.
fn alone(alloc: Global, name: &str) -> Option<Seen> {
    match name {
        "name" => Some(name_row(alloc)),
        "push" => Some(push_row(alloc)),
        "lamp" => Some(lamp_row(alloc)),
        "blocks" => Some(blocks_row(alloc)),
        "cargo" => Some(cargo_row(alloc)),
        "desk" => Some(desk_row(alloc)),
        "replay" => Some(replay_row(alloc)),
        "bench" => Some(bench_row(alloc)),
        "work" => Some(work_row(alloc)),
        "replay-bytes" => Some(running::replay_row(alloc)),
        _ => frugal(alloc, name),
    }
}

/// Runs a row of calls that take no memory, or what is made for one.
fn frugal(alloc: Global, name: &str) -> Option<Seen> {
    match name.strip_suffix("-made") {
        Some(what) => asked(alloc, what, false),
        None => asked(alloc, name.strip_suffix("-asked")?, true),
    }
}

/// Makes what calls that take no memory need, and then the calls if they are wanted.
fn asked(alloc: Global, what: &str, makes_calls: bool) -> Option<Seen> {
    match what {
        "text" => Some(frugal::text_row(makes_calls)),
        "task" => Some(frugal::task_row(alloc, makes_calls)),
        "report" => Some(frugal::report_row(alloc, makes_calls)),
        "desk" => Some(frugal_desks::desk_row(alloc, makes_calls)),
        "owner" => Some(frugal_benches::owner_row(alloc, makes_calls)),
        "seat" => Some(frugal_benches::seat_row(alloc, makes_calls)),
        _ => None,
    }
}

/// Runs each row once, up to the first that does not have all its memory, or is wrong.
pub(crate) fn run_all<R: AllocGlobal + Threads + Wait + Sync>(rt: &R) -> Option<Seen> {
    for name in ROWS.split(' ') {
        let seen = run_row(rt, name)?;
        if seen.is_err() {
            return Some(seen);
        }
    }
    Some(Ok(()))
}
