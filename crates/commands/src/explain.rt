//! The commands `explain` and `validate`: they read the files that they name, and explain them.
ghost use Rattle.std.specs.Prelude.{◌≡◌, List, true, map, IfOk};
ghost use Rattle.explanations.specs.AllValid.{all_valid_for};
ghost use Rattle.task_reader.specs.Texts.{task_in};
ghost use Rattle.commands.specs.Run.{AreAllValidOver, AreTexts};
ghost use Rattle.judge_engine.specs.Inlet.{file_named};

use crate::command::ExplainRequest;
use crate::messages::Stop;
use explanations::{Explanation, ExplanationFormat, Options, Refused, SourceText, explain};
use judge_engine::Seed;
use judge_engine::fault::{Input, JudgeFault};
use judge_engine::inlet::{Absence, FILE_LIMIT, InFault, STANDARD_INPUT, Sources, file_named};
use judge_engine::report::Report;
use report_text::{Text, push_json_string};
use std::alloc::{AllocError, AllocFailed, Global};

/// What is explained, whether all is well, and if no plan was judged, why.
#[derive(Drop)]
pub(crate) struct Explained<'a> {
    pub(crate) report: Report,
    pub(crate) all_valid: bool,
    pub(crate) stop: Option<Stop<'a>>,
}

/// Why the files are not read.
#[derive(Drop)]
enum Unread<'a> {
    /// The file with this name cannot be read.
    Absent(&'a str, Absence),
    /// The file with this name is too large.
    TooLarge(&'a str, Input),
    /// Memory ran out.
    OutOfMemory,
}

impl From<AllocError> for Unread<'_> {
    fn from(_error: AllocError) -> Self {
        Unread::OutOfMemory
    }
}

impl<T: Drop> From<AllocFailed<T>> for Unread<'_> {
    fn from(_error: AllocFailed<T>) -> Self {
        Unread::OutOfMemory
    }
}

/// Explains the texts of files, which are read in the order of domain, problem and plans.
pub(crate) fn explain_files<'a, S: Sources>(
    alloc: Global,
    seed: Seed,
    files: &ExplainRequest<'a>,
    sources: &S,
    colors: bool,
) -> Result<Explained<'a>, AllocError>
    ensures { IfOk result (λ explained. explained.all_valid ≡ true
        → AreAllValidOver files.now.dialect (S.may_hold sources.now) files.now.domain.now files.now.problem.now (map (λ name. name.now) files.now.plans.items)) }
{
    let (name, why, stop) = match explanation_of(alloc, seed, files, sources, colors) {
        Ok(explained) => return Ok(explained),
        Err(Unread::Absent(name, absence)) => (
            name,
            why_absent(name, absence),
            Stop::Unreadable(name, absence),
        ),
        Err(Unread::TooLarge(name, input)) => (
            name,
            TOO_LARGE,
            Stop::NoReport(JudgeFault::TooLarge(input), 1),
        ),
        Err(Unread::OutOfMemory) => return Err(AllocError),
    };
    let text = unread_text(alloc, files.format, name, why)?;
    Ok(Explained {
        report: Report::from_bytes(text.into_bytes()),
        all_valid: false,
        stop: Some(stop),
    })
}

/// A file that was read, with its name.
struct NamedText {
    name: String,
    bytes: Vec<u8>,
}

impl Drop for NamedText {
    fn drop(self) {
        let Self { name: _, bytes: _ } = self;
    }
}

/// The explanation of files.
fn explanation_of<'a, S: Sources>(
    alloc: Global,
    seed: Seed,
    files: &ExplainRequest<'a>,
    sources: &S,
    colors: bool,
) -> Result<Explained<'a>, Unread<'a>>
    ensures { IfOk result (λ explained. explained.all_valid ≡ true
        → AreAllValidOver files.now.dialect (S.may_hold sources.now) files.now.domain.now files.now.problem.now (map (λ name. name.now) files.now.plans.items)) }
{
    let domain = read(alloc, sources, files.domain, Input::Domain)?;
    let problem = read(alloc, sources, files.problem, Input::Problem)?;
    let plans = read_plans(alloc, sources, files.plans.as_slice())?;
    let options = Options {
        dialect: files.dialect,
        trace: files.trace,
        lint: files.lint,
        format: files.format,
        colors,
    };
    let Explanation {
        text,
        all_valid,
        refused,
    } = explain_read(alloc, seed, options, &domain, &problem, plans.as_slice())?;
    Ok(Explained {
        report: Report::from_bytes(text.into_bytes()),
        all_valid,
        stop: stop_for(refused, &domain, &problem),
    })
}

/// The stop for a text that is refused, if one is.
fn stop_for<'a>(
    refused: Option<Refused>,
    domain: &NamedText,
    problem: &NamedText,
) -> Option<Stop<'a>> {
    let fault = match refused? {
        Refused::Domain(fault) => JudgeFault::Domain(fault),
        Refused::Problem(fault) => JudgeFault::Problem(fault),
    };
    Some(Stop::for_fault(fault, domain.bytes.as_slice(), problem.bytes.as_slice()))
}

/// The explanation of files that were read.
fn explain_read(
    alloc: Global,
    seed: Seed,
    options: Options,
    domain: &NamedText,
    problem: &NamedText,
    plans: &[NamedText],
) -> Result<Explanation, AllocError>
    ensures { IfOk result (λ explanation. (files : List SourceText) × (map (λ file. file.bytes.now) files ≡ map (λ plan. plan.bytes.items) plans.now)
        × (explanation.all_valid ≡ all_valid_for (task_in options.dialect domain.now.bytes.items problem.now.bytes.items) files)) }
{
    let sources = sources_of(alloc, plans)?;
    explain(
        alloc,
        seed,
        options,
        source(domain),
        source(problem),
        sources.as_slice(),
    )
}

/// The files of plans as the explanation takes them.
fn sources_of<'a>(alloc: Global, plans: &'a [NamedText]) -> Result<Vec<SourceText<'a>>, AllocError>
    ensures { IfOk result (λ sources. map (λ file. file.bytes.now) sources.items ≡ map (λ plan. plan.bytes.items) plans.now) }
{
    let mut sources = Vec::with_capacity(alloc, plans.len())?;
    for plan in plans {
        sources.push(source(plan))?;
    }
    Ok(sources)
}

/// A file as the explanation takes it.
fn source(file: &NamedText) -> SourceText<'_>
    ensures { result.bytes.now ≡ file.now.bytes.items }
{
    SourceText {
        name: file.name.as_bytes(),
        bytes: file.bytes.as_slice(),
    }
}

/// The files of plans.
fn read_plans<'a, S: Sources>(
    alloc: Global,
    sources: &S,
    names: &[&'a str],
) -> Result<Vec<NamedText>, Unread<'a>>
    ensures { IfOk result (λ plans. AreTexts (S.may_hold sources.now) (map (λ name. name.now) names.now) (map (λ plan. plan.bytes.items) plans.items)) }
{
    let mut plans = Vec::with_capacity(alloc, names.len())?;
    for name in names {
        let input = Input::Plans(plans.len());
        plans.push(read(alloc, sources, name, input)?)?;
    }
    Ok(plans)
}

/// The text of the file that a word names.
fn read<'a, S: Sources>(
    alloc: Global,
    sources: &S,
    name: &'a str,
    input: Input,
) -> Result<NamedText, Unread<'a>>
    ensures { IfOk result (λ text. S.may_hold sources.now (file_named name.now) text.bytes.items) }
{
    let file = file_named(name);
    match sources.text(file) {
        Ok(bytes) if bytes.len() <= FILE_LIMIT => Ok(NamedText {
            name: String::from_str(alloc, name)?,
            bytes,
        }),
        Ok(_) => Err(Unread::TooLarge(name, input)),
        Err(InFault::OutOfMemory) => Err(Unread::OutOfMemory),
        Err(InFault::Unreadable) => Err(Unread::Absent(name, sources.absence(file))),
    }
}

/// Why a file is refused that is larger than [`FILE_LIMIT`], as it follows the file's name.
const TOO_LARGE: &str = "is too large: a file has at most 16,777,216 bytes";

/// Why a file can't be read, as it follows the file's name.
fn why_absent(name: &str, absence: Absence) -> &'static str {
    match absence {
        Absence::Missing if name == STANDARD_INPUT => "cannot be read: standard input is closed",
        Absence::Missing => "cannot be read: there is no such file",
        Absence::Folder => "cannot be read: it is a folder",
        Absence::Forbidden => "cannot be read: permission denied",
        Absence::Other => "cannot be read",
    }
}

/// What is explained of a file that is not read.
fn unread_text(
    alloc: Global,
    format: ExplanationFormat,
    name: &str,
    why: &str,
) -> Result<Text, AllocError> {
    let mut text = Text::new(alloc);
    if format == ExplanationFormat::Json {
        text.push(b"{\"type\":\"unreadable\",\"file\":")?;
        push_json_string(&mut text, name.as_bytes())?;
        text.push(b",\"message\":")?;
        push_json_string(&mut text, why.as_bytes())?;
        text.push(b"}\n")?;
        return Ok(text);
    }
    text.push(name.as_bytes())?;
    text.push(b" ")?;
    text.push(why.as_bytes())?;
    text.push(b"\n")?;
    Ok(text)
}
