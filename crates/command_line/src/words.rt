//! What the words of an accepted command line say: the command, the values of options, and the operands.
//!
//! ```text
//! // plan_judge judge --domain d.pddl --problem=p.pddl plans.txt
//! has_command(&words, "judge")           // true
//! let arguments = arguments(&words);
//! value_of(arguments, "--domain")        // Some("d.pddl")
//! value_of(arguments, "--problem")       // Some("p.pddl")
//! operands(alloc, arguments)?            // ["plans.txt"]
//! ```
//!
//! An option and its value are two words, as `--domain FILE`, or one, as `--domain=FILE`. After the word `--` there are no options. Which command lines are
//! accepted is decided by `clap`, which also writes help and errors.

ghost use Rattle.std.specs.Prelude.{◌≡◌, false, true, map, option_map, ◌++◌, IfOk, OnOk};
ghost use Rattle.std.specs.String.{string_bytes};
ghost use Rattle.command_line.specs.Words.{arguments, asks_for_help, behind_program, first_word, ends_at_first_t, has_command, has_help, is_help, is_option, is_short_help, is_tolerance, joined_value, operands, takes_a_value, value_of};

use std::alloc::{AllocError, Global};

/// Whether the command, which is the second word, is this one.
pub fn has_command(words: &[String], name: &str) -> bool
    ensures { result ≡ has_command name.now (map string_bytes words.now) }
{
    match words {
        [_, command, ..] => command.as_str() == name,
        _ => false,
    }
}

/// The words that follow the command.
pub fn arguments(words: &[String]) -> &[String]
    ensures { map string_bytes result.now ≡ arguments (map string_bytes words.now) }
{
    match words {
        [_, _, arguments @ ..] => arguments,
        _ => &[],
    }
}

/// Whether a command line asks for help or for the version: by the command `help`, or by an option before the word `--`.
pub fn asks_for_help(words: &[String]) -> bool
    ensures { result ≡ asks_for_help (map string_bytes words.now) }
{
    has_command(words, "help") || has_help(behind_program(words))
}

/// The words that follow the program's name.
fn behind_program(words: &[String]) -> &[String]
    ensures { map string_bytes result.now ≡ behind_program (map string_bytes words.now) }
{
    match words {
        [_, behind @ ..] => behind,
        _ => &[],
    }
}

/// Whether an option before the word `--` asks for help or for the version.
#[tactic(auto, using(crate::proofs::HelpLemmas::help_steps))]
fn has_help(words: &[String]) -> bool
    ensures { result ≡ has_help (map string_bytes words.now) }
{
    let mut rest = words;
    'words: while let Some((word, behind)) = rest.split_first() {
        let word = word.as_str();
        if word == "--" {
            return false;
        }
        if is_help(word) {
            return true;
        }
        rest = behind;
    }
    false
}

/// Whether a word is an option that asks for help or for the version.
fn is_help(word: &str) -> bool
    ensures { result ≡ is_help word.now }
{
    word == "--help" || word == "--version" || is_short_help(word)
}

/// Whether a word begins with `-h` or `-V`.
fn is_short_help(word: &str) -> bool
    ensures { result ≡ is_short_help word.now }
{
    match word.as_bytes() {
        [dash, letter, ..] => *dash == b'-' && (*letter == b'h' || *letter == b'V'),
        _ => false,
    }
}

/// The value of an option among some words: the first that is given.
#[tactic(auto, using(crate::proofs::ValueLemmas::value_steps))]
pub fn value_of<'a>(words: &'a [String], option: &str) -> Option<&'a str>
    ensures { option_map (λ value. value.now) result ≡ value_of option.now (map string_bytes words.now) }
{
    let mut rest = words;
    'words: while let Some((word, behind)) = rest.split_first() {
        if word.as_str() == "--" {
            return None;
        }
        if word.as_str() == option {
            return first_word(behind);
        }
        if let Some(value) = joined_value(word.as_str(), option) {
            return Some(value);
        }
        rest = behind;
    }
    None
}

/// The first of some words.
fn first_word(words: &[String]) -> Option<&str>
    ensures { option_map (λ word. word.now) result ≡ first_word (map string_bytes words.now) }
{
    match words {
        [word, ..] => Some(word.as_str()),
        _ => None,
    }
}

/// The value of an option in a word, if the word is the option, an equals sign and a value.
fn joined_value<'a>(word: &'a str, option: &str) -> Option<&'a str>
    ensures { option_map (λ value. value.now) result ≡ joined_value option.now word.now }
{
    match word.split_once('=') {
        Some((front, value)) if front == option => Some(value),
        _ => None,
    }
}

/// The words that are neither options nor their values. Takes memory for a list of them.
#[tactic(auto, using(crate::proofs::OperandLemmas::operand_steps))]
pub fn operands<'a>(alloc: Global, words: &'a [String]) -> Result<Vec<&'a str>, AllocError>
    ensures { IfOk result (λ found. map (λ word. word.now) found.items ≡ operands (map string_bytes words.now)) }
{
    let mut operands = Vec::new(alloc);
    let mut is_value = false;
    let mut rest = words;
    'words: while let Some((word, behind)) = rest.split_first() {
        let word = word.as_str();
        rest = behind;
        if is_value {
            is_value = false;
        } else if word == "--" {
            push_all(&mut operands, behind)?;
            return Ok(operands);
        } else if takes_a_value(word) {
            is_value = true;
        } else if !is_option(word) {
            operands.push(word)?;
        }
    }
    Ok(operands)
}

/// Adds all of some words to a list.
fn push_all<'a>(operands: &mut Vec<&'a str>, words: &'a [String]) -> Result<(), AllocError>
    ensures { OnOk result (map (λ word. word.now) operands.new.items ≡ map (λ word. word.now) operands.old.items ++ map string_bytes words.now) }
{
    for word in words {
        operands.push(word.as_str())?;
    }
    Ok(())
}

/// Whether a word is an option whose value is the next word.
fn takes_a_value(word: &str) -> bool
    ensures { result ≡ takes_a_value word.now }
{
    word == "--domain"
        || word == "--problem"
        || word == "--steps"
        || word == "--dialect"
        || word == "--format"
        || word == "--workers"
        || is_tolerance(word)
}

/// Whether a word is a group of short options whose last letter is the first `t` in it, such as `-t`.
fn is_tolerance(word: &str) -> bool
    ensures { result ≡ is_tolerance word.now }
{
    match word.as_bytes() {
        [dash, letter, ..] => { *dash == b'-' && *letter != b'-' && ends_at_first_t(word) }
        _ => false,
    }
}

/// Whether the first `t` of a word is its last byte.
fn ends_at_first_t(word: &str) -> bool
    ensures { result ≡ ends_at_first_t word.now }
{
    match word.split_once('t') {
        Some((_, rest)) => rest.is_empty(),
        None => false,
    }
}

/// Whether a word is an option: it begins with a dash, and is more than a dash.
fn is_option(word: &str) -> bool
    ensures { result ≡ is_option word.now }
{
    match word.as_bytes() {
        [dash, _, ..] => *dash == b'-',
        _ => false,
    }
}
