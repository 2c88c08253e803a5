//! Which command lines are accepted: the commands with their options, for `clap`.

use crate::VERSION;
use crate::help::{
    ABOUT, AFTER_HELP, EXPLAIN_ABOUT, EXPLAIN_AFTER_HELP, JUDGE_ABOUT, JUDGE_AFTER_HELP,
    REPLAY_ABOUT, REPLAY_AFTER_HELP, VALIDATE_ABOUT, VALIDATE_AFTER_HELP,
};
use clap::{Arg, ArgAction, Command, value_parser};
use std::alloc::{AllocError, Global};

/// The names of the dialects.
const DIALECTS: [&str; 3] = ["strips", "ipc", "adl"];

/// The names of the formats of a report.
const FORMATS: [&str; 3] = ["lines", "tsv", "json"];

/// The names of the formats of an explanation.
const EXPLANATION_FORMATS: [&str; 2] = ["text", "json"];

/// The program's command line. It takes memory for each command and each option.
pub fn program<'a>(alloc: Global) -> Result<Command<'a>, AllocError> {
    Command::new(alloc, "plan_judge")
        .version(VERSION)
        .about(ABOUT)
        .after_help(AFTER_HELP)
        .subcommand_required(true)
        .arg_required_else_help(true)
        .subcommand(judge_command(alloc)?)?
        .subcommand(explain_command(alloc)?)?
        .subcommand(validate_command(alloc)?)?
        .subcommand(replay_command(alloc)?)
}

/// The command `judge`.
fn judge_command<'a>(alloc: Global) -> Result<Command<'a>, AllocError> {
    Command::new(alloc, "judge")
        .about(JUDGE_ABOUT)
        .after_help(JUDGE_AFTER_HELP)
        .arg(domain_file(alloc))?
        .arg(problem_file(alloc))?
        .arg(dialect(alloc))?
        .arg(
            Arg::new(alloc, "format")
                .long("format")
                .value_name("FORMAT")
                .help("How the report is written: lines for people, a table, or JSON records")
                .value_parser(FORMATS.as_slice())
                .default_value("lines"),
        )?
        .arg(
            Arg::new(alloc, "workers")
                .long("workers")
                .value_name("N")
                .help("How many threads may judge, 1 to 32; the report is the same for any number")
                .value_parser(value_parser!(u32).range(1..=32))
                .default_value("4"),
        )?
        .arg(
            Arg::new(alloc, "plans")
                .value_name("PLANS")
                .help("The planners' files, each with the plans of one planner")
                .required(true)
                .num_args(1..)
                .action(ArgAction::Append),
        )
}

/// The command `explain`.
fn explain_command<'a>(alloc: Global) -> Result<Command<'a>, AllocError> {
    Command::new(alloc, "explain")
        .about(EXPLAIN_ABOUT)
        .after_help(EXPLAIN_AFTER_HELP)
        .arg(domain_file(alloc))?
        .arg(problem_file(alloc))?
        .arg(dialect(alloc))?
        .arg(
            Arg::new(alloc, "format")
                .long("format")
                .value_name("FORMAT")
                .help("How the explanation is written: text for people, or JSON records")
                .value_parser(EXPLANATION_FORMATS.as_slice())
                .default_value("text"),
        )?
        .arg(switch(alloc, "trace", "Also tell what each step deletes and adds").long("trace"))?
        .arg(switch(
            alloc,
            "lint",
            "Also warn of what is probably not meant in the domain and the problem",
        )
        .long("lint"))?
        .arg(
            Arg::new(alloc, "plans")
                .value_name("PLANS")
                .help("The planners' files, each with the plans of one planner")
                .num_args(0..)
                .action(ArgAction::Append),
        )
}

/// The command `replay`.
fn replay_command<'a>(alloc: Global) -> Result<Command<'a>, AllocError> {
    Command::new(alloc, "replay")
        .about(REPLAY_ABOUT)
        .after_help(REPLAY_AFTER_HELP)
        .arg(domain_file(alloc))?
        .arg(problem_file(alloc))?
        .arg(file(alloc, "steps", "STEPS", "The steps to be replayed").long("steps"))?
        .arg(dialect(alloc))
}

/// The command `validate`.
fn validate_command<'a>(alloc: Global) -> Result<Command<'a>, AllocError> {
    let why = "Explain why a plan is not valid, as the command explain does";
    let silently = "Print a line for each plan: its value, or failed";
    Command::new(alloc, "validate")
        .about(VALIDATE_ABOUT)
        .after_help(VALIDATE_AFTER_HELP)
        .arg(switch(alloc, "verbose", why).short('v'))?
        .arg(
            Arg::new(alloc, "tolerance")
                .short('t')
                .value_name("N")
                .help("Changes nothing; VAL takes a tolerance for times here")
                .action(ArgAction::Set),
        )?
        .arg(switch(alloc, "silent", silently).short('S'))?
        .arg(file(alloc, "domain", "DOMAIN", "The domain, in PDDL"))?
        .arg(file(alloc, "problem", "PROBLEM", "The problem, in PDDL"))?
        .arg(
            Arg::new(alloc, "plans")
                .value_name("PLANS")
                .help("The files of plans, each with one plan or more")
                .required(true)
                .num_args(1..)
                .action(ArgAction::Append),
        )
}

fn domain_file<'a>(alloc: Global) -> Arg<'a> {
    file(alloc, "domain", "DOMAIN", "The domain, in PDDL").long("domain")
}

fn problem_file<'a>(alloc: Global) -> Arg<'a> {
    file(alloc, "problem", "PROBLEM", "The problem, in PDDL").long("problem")
}

/// A file that a command line has to name.
fn file<'a>(alloc: Global, id: &'a str, name: &'a str, help: &'a str) -> Arg<'a> {
    Arg::new(alloc, id)
        .value_name(name)
        .help(help)
        .required(true)
        .action(ArgAction::Set)
}

/// An option without a value.
fn switch<'a>(alloc: Global, id: &'a str, help: &'a str) -> Arg<'a> {
    Arg::new(alloc, id).help(help).action(ArgAction::SetTrue)
}

fn dialect<'a>(alloc: Global) -> Arg<'a> {
    Arg::new(alloc, "dialect")
        .long("dialect")
        .value_name("DIALECT")
        .help(
            "The language of the domain and the problem; ipc adds action costs and equality, adl also or, quantifiers and when",
        )
        .value_parser(DIALECTS.as_slice())
        .default_value("strips")
}
