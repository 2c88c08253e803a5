//! The program: the words of the command line in, bytes and an exit status out.
//!
//! [`main_with`] does all that `main` does, over sources and outlets that are handed in, so that tests can make them fail.
ghost use Rattle.std.specs.Prelude.{◌≡◌, ◌↔◌, ◌⊎◌, ◌<◌, ◌≤◌, true, false, map, IfOk};
ghost use Rattle.std.specs.String.{string_bytes};
ghost use Rattle.command_line.specs.Words.{asks_for_help};
ghost use Rattle.commands.specs.Command.{asks_what_is_wrong};
ghost use Rattle.std.specs.Io.KnownBytes.{Appends};
ghost use Rattle.judge_engine.specs.Outlet.{AppendsFront};
ghost use Rattle.commands.specs.Run.{Answers, AreAllValidOver, IsReportOver, WritesReport, CutsReport, IsReplayOver, WritesReplay, CutsReplay, IsFile, AreFiles};
ghost use Rattle.judge_engine.specs.Inlet.{file_named};

use crate::command::{ExplainRequest, JudgeRequest, ReplayRequest, parse};
use crate::explain::{Explained, explain_files};
use crate::messages::{Call, Stop, message, push_escaped};
use crate::requests::Request;
use judge_bench::Open;
use judge_engine::Seed;
use judge_engine::bundle::Bundle;
use judge_engine::engine::{RunInput, judge_run};
use judge_engine::inlet::{InFault, Sources, file_named};
use judge_engine::outlet::{Outlet, write_bytes, write_report};
use judge_engine::replay::replay_bytes_in;
use judge_engine::report::Report;
use rayon::prelude::*;
use report_text::{Format, Text};
use std::alloc::{AllocError, Global};
use std::sync::{Arc, Wait};
use std::thread::Threads;

/// Runs the program on the words of a command line, the first of which is the program's name, and answers the exit status:
/// 0 if a report or help was written, 1 if an input was refused, 2 if the command line was, 3 if memory ran out or a thread could not be started,
/// and 4 if the report or help could not be written.
///
/// A report goes to `out` as a whole. If `out` fails, it has taken only the beginning. Messages go to `err`, whose faults are ignored. Tables of
/// names and atoms hash with the seed, and nothing that is written depends on it.
///
/// The commands `explain` and `validate` write to `out` even with status 1, since what is wrong is what they are asked for.
pub fn main_with<R: AllocGlobal + Threads + Wait + Sync, S: Sources + Sync, O: Outlet, E: Outlet>(
    rt: &R,
    seed: Seed,
    words: &[String],
    sources: &S,
    out: &mut O,
    err: &mut E,
) -> u8
    requires { O.failed out.old ≡ false }
    ensures status { result ≤ 4 }
    ensures written { result ≡ 0 → asks_for_help (map string_bytes words.now) ≡ false → Answers (S.may_hold sources.now) (map string_bytes words.now) (O.taken out.old) (O.taken out.new) }
    ensures unwritten { (result ≡ 4) ↔ (O.failed out.new ≡ true) }
    ensures untouched { asks_what_is_wrong (map string_bytes words.now) ≡ false → 0 < result → result < 4 → out.new ≡ out.old }
{
    match parse(rt.alloc(), words) {
        Ok(Request::Judge(files)) => judge_with(rt, seed, &files, sources, out, err),
        Ok(Request::Replay(files)) => replay_with(rt.alloc(), seed, &files, sources, out, err),
        Ok(Request::Explain(files)) => explain_with(rt.alloc(), seed, &files, sources, out, err),
        Ok(Request::Validate(files)) => validate_with(rt.alloc(), seed, &files, sources, out, err),
        Ok(Request::Show(text)) => write_out(&Report::from_bytes(text.into_bytes()), out, err),
        Ok(Request::Refused(text)) => {
            tell(err, text.as_slice());
            2
        }
        Err(AllocError) => out_of_memory(err),
    }
}

/// Judges the plans of files, one for each planner, and answers the exit status, as `main_with` does for a command line that names these files.
pub fn judge_with<R: AllocGlobal + Threads + Wait + Sync, S: Sources + Sync, O: Outlet, E: Outlet>(
    rt: &R,
    seed: Seed,
    files: &JudgeRequest<'_>,
    sources: &S,
    out: &mut O,
    err: &mut E,
) -> u8
    requires { O.failed out.old ≡ false }
    ensures status { result ≤ 4 }
    ensures written { result ≡ 0 → WritesReport files.now.dialect files.now.format (S.may_hold sources.now) files.now.domain.now files.now.problem.now (map (λ name. name.now) files.now.plans.items)
        (O.taken out.old) (O.taken out.new) }
    ensures cut { result ≡ 4 → CutsReport files.now.dialect files.now.format (S.may_hold sources.now) files.now.domain.now files.now.problem.now (map (λ name. name.now) files.now.plans.items)
        (O.taken out.old) (O.taken out.new) }
    ensures unwritten { (result ≡ 4) ↔ (O.failed out.new ≡ true) }
    ensures untouched { 0 < result → result < 4 → out.new ≡ out.old }
{
    match judge_files(rt, seed, files, sources) {
        Ok(report) => write_out(&report, out, err),
        Err(stop) => {
            let call = Call {
                domain: files.domain,
                problem: files.problem,
                others: files.plans.as_slice(),
                dialect: files.dialect,
                is_json: files.format == Format::Json,
            };
            stopped(rt.alloc(), stop, call, err)
        }
    }
}

/// Replays the steps of a file, and answers the exit status, as `main_with` does for a command line that names these files.
pub fn replay_with<S: Sources, O: Outlet, E: Outlet>(
    alloc: Global,
    seed: Seed,
    files: &ReplayRequest<'_>,
    sources: &S,
    out: &mut O,
    err: &mut E,
) -> u8
    requires { O.failed out.old ≡ false }
    ensures status { result ≤ 4 }
    ensures written { result ≡ 0 → WritesReplay files.now.dialect (S.may_hold sources.now) files.now.domain.now files.now.problem.now files.now.steps.now
        (O.taken out.old) (O.taken out.new) }
    ensures cut { result ≡ 4 → CutsReplay files.now.dialect (S.may_hold sources.now) files.now.domain.now files.now.problem.now files.now.steps.now
        (O.taken out.old) (O.taken out.new) }
    ensures unwritten { (result ≡ 4) ↔ (O.failed out.new ≡ true) }
    ensures untouched { 0 < result → result < 4 → out.new ≡ out.old }
{
    match replay_files(alloc, seed, files, sources) {
        Ok(report) => write_out(&report, out, err),
        Err(stop) => {
            let call = Call {
                domain: files.domain,
                problem: files.problem,
                others: &[files.steps],
                dialect: files.dialect,
                is_json: false,
            };
            stopped(alloc, stop, call, err)
        }
    }
}

/// Explains why texts are refused and plans fail, and answers the exit status, as `main_with` does for a command line that names these files: 0
/// if all plans are valid, and 1 if something is wrong. If files can't be read, that is explained, too.
pub fn explain_with<S: Sources, O: Outlet, E: Outlet>(
    alloc: Global,
    seed: Seed,
    files: &ExplainRequest<'_>,
    sources: &S,
    out: &mut O,
    err: &mut E,
) -> u8
    requires { O.failed out.old ≡ false }
    ensures status { result ≤ 4 }
    ensures valid { result ≡ 0 → AreAllValidOver files.now.dialect (S.may_hold sources.now) files.now.domain.now files.now.problem.now (map (λ name. name.now) files.now.plans.items) }
    ensures unwritten { (result ≡ 4) ↔ (O.failed out.new ≡ true) }
    ensures lacking { result ≡ 3 → out.new ≡ out.old }
{
    let explained = match explain_files(alloc, seed, files, sources, out.is_terminal()) {
        Ok(explained) => explained,
        Err(AllocError) => return out_of_memory(err),
    };
    write_explained(&explained.report, explained.all_valid, out, err)
}

/// Says in the phrases of VAL's `validate` which plans are valid, and answers the exit status, as `main_with` does for a command line that names
/// these files: 0 if all plans are valid, and 1 if not. If a file can't be read, or a text is refused, `out` takes nothing, and `err` what
/// [`judge_with`] writes to it.
pub fn validate_with<S: Sources, O: Outlet, E: Outlet>(
    alloc: Global,
    seed: Seed,
    files: &ExplainRequest<'_>,
    sources: &S,
    out: &mut O,
    err: &mut E,
) -> u8
    requires { O.failed out.old ≡ false }
    ensures status { result ≤ 4 }
    ensures valid { result ≡ 0 → AreAllValidOver files.now.dialect (S.may_hold sources.now) files.now.domain.now files.now.problem.now (map (λ name. name.now) files.now.plans.items) }
    ensures unwritten { (result ≡ 4) ↔ (O.failed out.new ≡ true) }
    ensures lacking { result ≡ 3 → out.new ≡ out.old }
{
    match explain_files(alloc, seed, files, sources, false) {
        Ok(
            Explained {
                stop: Some(stop),
                ..
            },
        ) => {
            let call = Call {
                domain: files.domain,
                problem: files.problem,
                others: files.plans.as_slice(),
                dialect: files.dialect,
                is_json: false,
            };
            stopped(alloc, stop, call, err)
        }
        Ok(
            Explained {
                report,
                all_valid,
                stop: None,
            },
        ) => write_explained(&report, all_valid, out, err),
        Err(AllocError) => out_of_memory(err),
    }
}

/// Writes what was found about plans, and answers the exit status: 0 if all of them are valid and all of it was written.
fn write_explained<O: Outlet, E: Outlet>(
    report: &Report,
    all_valid: bool,
    out: &mut O,
    err: &mut E,
) -> u8
    requires { O.failed out.old ≡ false }
    ensures status { (result ≡ 0) ⊎ ((result ≡ 1) ⊎ (result ≡ 4)) }
    ensures valid { result ≡ 0 → all_valid ≡ true }
    ensures unwritten { (result ≡ 4) ↔ (O.failed out.new ≡ true) }
{
    match write_out(report, out, err) {
        0 if all_valid => 0,
        0 => 1,
        _ => 4,
    }
}

/// Writes why a run stops without a report, and answers the exit status.
fn stopped<E: Outlet>(alloc: Global, stop: Stop<'_>, call: Call<'_>, err: &mut E) -> u8
    ensures status { (result ≡ 1) ⊎ (result ≡ 3) }
{
    let status = match stop {
        Stop::Unreadable(_, _) => 1,
        Stop::NoReport(fault, _) => fault.status(),
        Stop::OutOfMemory => return out_of_memory(err),
    };
    match message(alloc, stop, call, err.is_terminal()) {
        Ok(text) => {
            tell(err, text.into_bytes().as_slice());
            status
        }
        Err(AllocError) => out_of_memory(err),
    }
}

/// Writes a report or help, and answers the exit status: 0 if all of it was written, and 4 if not.
fn write_out<O: Outlet, E: Outlet>(report: &Report, out: &mut O, err: &mut E) -> u8
    requires { O.failed out.old ≡ false }
    ensures status { (result ≡ 0) ⊎ (result ≡ 4) }
    ensures whole { result ≡ 0 → Appends (O.taken out.old) (O.taken out.new) report.now }
    ensures cut { result ≡ 4 → AppendsFront (O.taken out.old) (O.taken out.new) report.now }
    ensures unwritten { (result ≡ 4) ↔ (O.failed out.new ≡ true) }
{
    match write_report(report, out) {
        Ok(()) => 0,
        Err(_) => {
            tell(err, b"cannot write the report\n");
            4
        }
    }
}

/// Writes that memory ran out, and answers the exit status. Takes no memory.
pub fn out_of_memory<E: Outlet>(err: &mut E) -> u8
    ensures { result ≡ 3 }
{
    tell(err, b"out of memory\n");
    3
}

/// Writes bytes to the outlet for errors; a fault there is ignored.
fn tell<E: Outlet>(err: &mut E, bytes: &[u8]) {
    if !err.has_failed() {
        let _ = write_bytes(bytes, err);
    }
}

/// Writes that a word of the command line is no text, and answers the exit status.
pub fn not_a_text<E: Outlet>(alloc: Global, word: &[u8], err: &mut E) -> u8
    ensures { (result ≡ 2) ⊎ (result ≡ 3) }
{
    let mut text = Text::new(alloc);
    match push_not_a_text(&mut text, word) {
        Ok(()) => {
            tell(err, text.into_bytes().as_slice());
            2
        }
        Err(AllocError) => out_of_memory(err),
    }
}

/// Adds that a word is no text.
fn push_not_a_text(text: &mut Text, word: &[u8]) -> Result<(), AllocError> {
    text.push(b"error: the word \"")?;
    push_escaped(text, word)?;
    text.push(b"\" is not UTF-8\n")
}

/// The report of a run over files. They are read in the order of domain, problem and plans.
fn judge_files<'a, R: AllocGlobal + Threads + Wait + Sync, S: Sources + Sync>(
    rt: &R,
    seed: Seed,
    files: &JudgeRequest<'a>,
    sources: &S,
) -> Result<Report, Stop<'a>>
    ensures { IfOk result (IsReportOver files.now.dialect files.now.format (S.may_hold sources.now) files.now.domain.now files.now.problem.now (map (λ name. name.now) files.now.plans.items)) }
{
    let alloc = rt.alloc();
    let domain = read(sources, files.domain)?;
    let problem = read(sources, files.problem)?;
    let bundles = read_bundles(rt, sources, files.plans.as_slice(), files.workers)?;
    let input = RunInput {
        dialect: files.dialect,
        format: files.format,
        domain: domain.as_slice(),
        problem: problem.as_slice(),
        bundles: bundles.as_slice(),
        workers: files.workers,
    };
    match judge_run(rt, alloc, seed, &input, &Open) {
        Ok(report) => Ok(report),
        Err(fault) => Err(Stop::for_fault(fault, domain.as_slice(), problem.as_slice())),
    }
}

/// The lines of a replay over files. They are read in the order of domain, problem and steps.
fn replay_files<'a, S: Sources>(
    alloc: Global,
    seed: Seed,
    files: &ReplayRequest<'a>,
    sources: &S,
) -> Result<Report, Stop<'a>>
    ensures { IfOk result (IsReplayOver files.now.dialect (S.may_hold sources.now) files.now.domain.now files.now.problem.now files.now.steps.now) }
{
    let domain = read(sources, files.domain)?;
    let problem = read(sources, files.problem)?;
    let steps = read(sources, files.steps)?;
    match replay_bytes_in(
        alloc,
        seed,
        files.dialect,
        domain.as_slice(),
        problem.as_slice(),
        steps.as_slice(),
    ) {
        Ok(report) => Ok(report),
        Err(fault) => Err(Stop::for_fault(fault, domain.as_slice(), problem.as_slice())),
    }
}

/// The files of planners, in the order of their names. A planner has the name of its file. At most `threads` threads read.
fn read_bundles<'a, R: AllocGlobal + Threads + Sync, S: Sources + Sync>(
    rt: &R,
    sources: &S,
    names: &[&'a str],
    threads: u32,
) -> Result<Vec<Bundle>, Stop<'a>>
    requires { 1 ≤ threads }
    ensures { IfOk result (λ bundles. AreFiles (S.may_hold sources.now) (map (λ name. name.now) names.now) bundles.items) }
{
    let alloc = rt.alloc();
    let piece = names.len().div_ceil(threads as usize);
    names
        .par_iter()
        .with_min_len(piece)
        .map(
            |name: &&str| -> Result<Bundle, Stop>
                ensures { IfOk result (IsFile (S.may_hold sources.entry.now) name.now.now) }
            { read_bundle(alloc, sources, name) },
        )
        .collect::<Result<Vec<Bundle>, Stop<'a>>>(rt, alloc)?
}

/// The file of a planner.
fn read_bundle<'a, S: Sources>(
    alloc: Global,
    sources: &S,
    name: &'a str,
) -> Result<Bundle, Stop<'a>>
    ensures { IfOk result (IsFile (S.may_hold sources.now) name.now) }
{
    let bytes = read(sources, name)?;
    let name = String::from_str(alloc, name)?;
    let bytes = Arc::new(alloc, bytes)?;
    Ok(Bundle { name, bytes })
}

/// The text of the file that a word names.
fn read<'a, S: Sources>(sources: &S, name: &'a str) -> Result<Vec<u8>, Stop<'a>>
    ensures { IfOk result (λ bytes. S.may_hold sources.now (file_named name.now) bytes.items) }
{
    let file = file_named(name);
    match sources.text(file) {
        Ok(bytes) => Ok(bytes),
        Err(InFault::OutOfMemory) => Err(Stop::OutOfMemory),
        Err(InFault::Unreadable) => Err(Stop::Unreadable(name, sources.absence(file))),
    }
}
