//! What a command line asks for, by the names of files.
ghost use Rattle.std.specs.Prelude.{◌≤◌};

use explanations::ExplanationFormat;
use judge_engine::inlet::STANDARD_INPUT;
use pddl_reader::Dialect;
use report_text::Format;

/// What a command line asks for.
#[derive(Drop)]
pub(crate) enum Request<'a> {
    /// Judge the plans of planners.
    Judge(JudgeRequest<'a>),
    /// Replay the steps of a file.
    Replay(ReplayRequest<'a>),
    /// Explain why texts are refused and plans fail.
    Explain(ExplainRequest<'a>),
    /// Say in VAL's phrases which plans are valid.
    Validate(ExplainRequest<'a>),
    /// Show a text, as help.
    Show(String),
    /// The command line is refused, with this text.
    Refused(Vec<u8>),
}

impl Request<'_> {
    /// Whether more than one file is standard input.
    pub(crate) fn reads_input_twice(&self) -> bool {
        match self {
            Request::Judge(files) => {
                count_input(&[files.domain, files.problem], files.plans.as_slice()) > 1
            }
            Request::Replay(files) => {
                count_input(&[files.domain, files.problem], &[files.steps]) > 1
            }
            Request::Explain(files) | Request::Validate(files) => {
                count_input(&[files.domain, files.problem], files.plans.as_slice()) > 1
            }
            Request::Show(_) | Request::Refused(_) => false,
        }
    }
}

/// How many of the names of files are the word for standard input.
fn count_input(texts: &[&str], others: &[&str]) -> usize {
    let count = |names: &[&str]| names.iter().filter(|name| **name == STANDARD_INPUT).count();
    count(texts).saturating_add(count(others))
}

/// A run over files.
#[derive(Drop)]
pub struct JudgeRequest<'a> {
    /// The name of the file of the domain.
    pub domain: &'a str,
    /// The name of the file of the problem.
    pub problem: &'a str,
    /// The names of the files of plans, one for each planner; the planner has the name of the file.
    pub plans: Vec<&'a str>,
    /// The dialect of the domain and the problem.
    pub dialect: Dialect,
    /// How the report is written.
    pub format: Format,
    /// How many threads may judge, 1 to 32.
    pub workers: u32,
    ghost some: { 1 ≤ workers },
    ghost most: { workers ≤ 32 },
}

/// What is to be explained or validated.
pub struct ExplainRequest<'a> {
    /// The name of the file of the domain.
    pub domain: &'a str,
    /// The name of the file of the problem.
    pub problem: &'a str,
    /// The names of the files of plans, perhaps none.
    pub plans: Vec<&'a str>,
    /// The dialect of the domain and the problem.
    pub dialect: Dialect,
    /// How the explanation is written.
    pub format: ExplanationFormat,
    /// Whether to show what each step changes, too.
    pub trace: bool,
    /// Whether to warn of what is probably not meant in the domain and the problem, too.
    pub lint: bool,
}

impl Drop for ExplainRequest<'_> {
    fn drop(self) {
        let Self {
            domain: _,
            problem: _,
            plans: _,
            dialect: _,
            format: _,
            trace: _,
            lint: _,
        } = self;
    }
}

/// The files of a replay.
#[derive(Drop)]
pub struct ReplayRequest<'a> {
    /// The name of the file of the domain.
    pub domain: &'a str,
    /// The name of the file of the problem.
    pub problem: &'a str,
    /// The name of the file of the steps.
    pub steps: &'a str,
    /// The dialect of the domain and the problem.
    pub dialect: Dialect,
}
