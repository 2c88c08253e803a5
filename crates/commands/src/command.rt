//! The command line.
//!
//! [`parse`] turns the words of the command line into a [`Request`]. `clap` decides which command lines are accepted; its texts carry no promise.

ghost use Rattle.std.specs.Prelude.{◌≡◌, true, codes, map, IfOk, IfSome};
ghost use Rattle.std.specs.String.{string_bytes};
ghost use Rattle.command_line.specs.Words.{has_command};
ghost use Rattle.commands.specs.Requests.{IsAskedFor};

use crate::messages::push_escaped;
use crate::requests::Request;
pub use crate::requests::{ExplainRequest, JudgeRequest, ReplayRequest};
use clap::error::ErrorKind;
use clap::{ArgMatches, Error};
use command_line::{
    arguments, asks_for_help, can_show, dialect_asked, format_asked, has_command, is_plain,
    operands, program, value_of,
};
use explanations::{ExplanationFormat, Phrases};
use pddl_reader::Dialect;
use report_text::Text;
use std::alloc::{AllocError, Global};

/// The most threads that may judge.
const MOST_WORKERS: u32 = 32;

/// Why a command line is refused that names standard input twice.
const READ_TWICE: &str =
    "error: - is standard input, which can be read only once; a file of that name is ./-\n";

/// What the options of `explain` and `validate` without a value say.
#[derive(Clone, Copy)]
struct Flags {
    trace: bool,
    lint: bool,
    phrases: Phrases,
}

/// The flags of a command line.
fn flags_of(matches: &ArgMatches<'_>) -> Flags {
    let is_set = |command: &str, flag: &str| match matches.subcommand_matches(command) {
        Some(found) => found.get_flag(flag),
        None => false,
    };
    Flags {
        trace: is_set("explain", "trace"),
        lint: is_set("explain", "lint"),
        phrases: if is_set("validate", "silent") {
            Phrases::Values
        } else if is_set("validate", "verbose") {
            Phrases::Full
        } else {
            Phrases::Short
        },
    }
}

/// What the words of a command line ask for; the first is the program's name.
///
/// `clap` decides whether the command line is accepted; what it asks for is read from its words.
pub(crate) fn parse<'a>(alloc: Global, words: &'a [String]) -> Result<Request<'a>, AllocError>
    ensures { IfOk result (IsAskedFor (map string_bytes words.now)) }
{
    match program(alloc)?.try_get_matches_from(words) {
        Ok(matches) => {
            let workers = match matches.subcommand_matches("judge") {
                Some(judge) => judge.get_one::<u32>("workers"),
                None => None,
            };
            match request_of(alloc, words, workers, flags_of(&matches))? {
                Some(request) if request.reads_input_twice() => refused(alloc, READ_TWICE),
                Some(request) => Ok(request),
                None => refused(alloc, "a command is missing; try --help\n"),
            }
        }
        Err(error) => {
            let request = refusal(alloc, words, error)?;
            Ok(request)
        }
    }
}

/// What the words of a command line ask for, if they name a command with all that it needs.
fn request_of<'a>(
    alloc: Global,
    words: &'a [String],
    workers: Option<u32>,
    flags: Flags,
) -> Result<Option<Request<'a>>, AllocError>
    ensures { IfOk result (λ request. IfSome request (IsAskedFor (map string_bytes words.now))) }
{
    if has_command(words, "judge") {
        return judge_request(alloc, words, workers);
    }
    if has_command(words, "replay") {
        return Ok(replay_request(words));
    }
    if has_command(words, "explain") {
        return explain_request(alloc, words, flags);
    }
    if has_command(words, "validate") {
        return validate_request(alloc, words, flags.phrases);
    }
    Ok(None)
}

/// What the command `judge` asks for.
fn judge_request<'a>(
    alloc: Global,
    words: &'a [String],
    workers: Option<u32>,
) -> Result<Option<Request<'a>>, AllocError>
    requires { has_command (codes "judge") (map string_bytes words.now) ≡ true }
    ensures { IfOk result (λ request. IfSome request (IsAskedFor (map string_bytes words.now))) }
{
    let arguments = arguments(words);
    if let Some(domain) = value_of(arguments, "--domain")
        && let Some(problem) = value_of(arguments, "--problem")
        && let Some(dialect) = dialect_asked(arguments)
        && let Some(format) = format_asked(arguments)
        && let Some(workers) = workers
        && 1 <= workers
        && workers <= MOST_WORKERS
    {
        let plans = operands(alloc, arguments)?;
        if !can_show(format, plans.as_slice()) {
            let text = not_shown(alloc, plans.as_slice())?;
            return Ok(Some(Request::Refused(text.into_bytes())));
        }
        return Ok(Some(Request::Judge(JudgeRequest {
            domain,
            problem,
            plans,
            dialect,
            format,
            workers,
        })));
    }
    Ok(None)
}

/// What the command `replay` asks for.
fn replay_request<'a>(words: &'a [String]) -> Option<Request<'a>>
    requires { has_command (codes "replay") (map string_bytes words.now) ≡ true }
    ensures { IfSome result (IsAskedFor (map string_bytes words.now)) }
{
    let arguments = arguments(words);
    let domain = value_of(arguments, "--domain")?;
    let problem = value_of(arguments, "--problem")?;
    let steps = value_of(arguments, "--steps")?;
    let dialect = dialect_asked(arguments)?;
    Some(Request::Replay(ReplayRequest {
        domain,
        problem,
        steps,
        dialect,
    }))
}

/// What the command `explain` asks for.
fn explain_request<'a>(
    alloc: Global,
    words: &'a [String],
    flags: Flags,
) -> Result<Option<Request<'a>>, AllocError>
    requires { has_command (codes "explain") (map string_bytes words.now) ≡ true }
    ensures { IfOk result (λ request. IfSome request (IsAskedFor (map string_bytes words.now))) }
{
    let arguments = arguments(words);
    if let Some(domain) = value_of(arguments, "--domain")
        && let Some(problem) = value_of(arguments, "--problem")
        && let Some(dialect) = dialect_asked(arguments)
    {
        let plans = operands(alloc, arguments)?;
        let format = explanation_format(arguments);
        return Ok(Some(Request::Explain(ExplainRequest {
            domain,
            problem,
            plans,
            dialect,
            format,
            trace: flags.trace,
            lint: flags.lint,
        })));
    }
    Ok(None)
}

/// What the command `validate` asks for.
fn validate_request<'a>(
    alloc: Global,
    words: &'a [String],
    phrases: Phrases,
) -> Result<Option<Request<'a>>, AllocError>
    requires { has_command (codes "validate") (map string_bytes words.now) ≡ true }
    ensures { IfOk result (λ request. IfSome request (IsAskedFor (map string_bytes words.now))) }
{
    let files = operands(alloc, arguments(words))?;
    match files.as_slice() {
        [domain, problem, rest @ ..] => {
            let mut plans = Vec::new(alloc);
            plans.extend_from_slice(rest)?;
            Ok(Some(Request::Validate(ExplainRequest {
                domain,
                problem,
                plans,
                dialect: Dialect::Adl,
                format: ExplanationFormat::Phrases(phrases),
                trace: false,
                lint: false,
            })))
        }
        _ => Ok(None),
    }
}

/// The format of an explanation that some words ask for: a text, unless they name JSON.
fn explanation_format(words: &[String]) -> ExplanationFormat {
    match value_of(words, "--format") {
        Some("json") => ExplanationFormat::Json,
        _ => ExplanationFormat::Text,
    }
}

/// What a command line that starts no run asks for: help, or nothing if it is refused.
fn refusal<'a>(alloc: Global, words: &[String], error: Error) -> Result<Request<'a>, AllocError>
    ensures { IfOk result (IsAskedFor (map string_bytes words.now)) }
{
    if error.kind() == ErrorKind::OutOfMemory {
        return Err(AllocError);
    }
    let text = format!(in alloc; "{error}")?;
    if !error.use_stderr() && asks_for_help(words) {
        Ok(Request::Show(text))
    } else {
        Ok(Request::Refused(text.into_bytes()))
    }
}

/// A refusal with this text.
fn refused<'a>(alloc: Global, text: &str) -> Result<Request<'a>, AllocError>
    ensures { IfOk result (λ request. (words : _) → IsAskedFor words request) }
{
    let text = String::from_str(alloc, text)?;
    Ok(Request::Refused(text.into_bytes()))
}

/// Why a report in lines is refused for planners with these names, one of which has a control character.
fn not_shown(alloc: Global, names: &[&str]) -> Result<Text, AllocError> {
    let mut text = Text::new(alloc);
    text.push(b"error: the name \"")?;
    if let Some(name) = names.iter().find(|name| !is_plain(name)) {
        push_escaped(&mut text, name.as_bytes())?;
    }
    text.push(
        b"\" has a control character, which a report in lines cannot show; --format tsv and --format json can\n",
    )?;
    Ok(text)
}
