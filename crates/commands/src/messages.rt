//! Why a run over files stops without a report, and the message that says so.
//!
//! The message is one line, as `domain line 8 bytes 231-233: UnknownName`. On a terminal a second line says more: why a file cannot be read, or how to
//! see where a text is refused and why. If the report would have been JSON, the message of a refusal is an object.
ghost use Rattle.std.specs.Prelude.{◌<◌};

use judge_engine::fault::{Input, JudgeFault};
use judge_engine::fault_text::{line_of_fault, push_fault};
use judge_engine::inlet::{Absence, STANDARD_INPUT};
use pddl_reader::{Dialect, ReadFault};
use pddl_tokens::Span;
use report_text::{Text, push_json_string};
use std::alloc::{AllocError, AllocFailed, Global};

/// Why a run over files stops without a report.
#[derive(Clone, Copy)]
pub(crate) enum Stop<'a> {
    /// The file with this name cannot be read.
    Unreadable(&'a str, Absence),
    /// The texts of the files give no report. The line is that of the fault, if it is in the domain or the problem.
    NoReport(JudgeFault, u32),
    /// Memory ran out.
    OutOfMemory,
}

impl From<AllocError> for Stop<'_> {
    fn from(_error: AllocError) -> Self {
        Stop::OutOfMemory
    }
}

impl<T: Drop> From<AllocFailed<T>> for Stop<'_> {
    fn from(_error: AllocFailed<T>) -> Self {
        Stop::OutOfMemory
    }
}

impl<'a> Stop<'a> {
    /// The stop for a fault in texts, of which only the domain and the problem are needed.
    pub(crate) fn for_fault(fault: JudgeFault, domain: &[u8], problem: &[u8]) -> Self {
        Stop::NoReport(fault, line_of_fault(fault, domain, problem))
    }
}

/// What a message repeats of the call that it answers.
#[derive(Clone, Copy)]
pub(crate) struct Call<'a> {
    /// The name of the file of the domain.
    pub(crate) domain: &'a str,
    /// The name of the file of the problem.
    pub(crate) problem: &'a str,
    /// The names of the planners' files, or of the file of steps.
    pub(crate) others: &'a [&'a str],
    /// The dialect of the domain and the problem.
    pub(crate) dialect: Dialect,
    /// Whether the report would have been JSON.
    pub(crate) is_json: bool,
}

impl<'a> Call<'a> {
    /// The name of the file of an input.
    fn file(self, input: Input) -> &'a str {
        let index = match input {
            Input::Domain => return self.domain,
            Input::Problem => return self.problem,
            Input::Plans(index) => index,
            Input::Steps => 0,
        };
        match self.others.get(index) {
            Some(name) => name,
            None => "a file",
        }
    }
}

/// A refusal as data.
#[derive(Clone, Copy)]
struct Refusal<'a> {
    file: Option<&'a str>,
    line: Option<u32>,
    bytes: Option<Span>,
    kind: &'static str,
}

/// The message of a stop. On a terminal it may have a second line.
pub(crate) fn message(
    alloc: Global,
    stop: Stop<'_>,
    call: Call<'_>,
    is_terminal: bool,
) -> Result<Text, AllocError> {
    let mut text = Text::new(alloc);
    if call.is_json
        && let Some(refusal) = refusal_of(stop, call)
    {
        push_object(&mut text, refusal)?;
        return Ok(text);
    }
    push_line(&mut text, stop, call)?;
    if is_terminal {
        push_more(&mut text, stop, call)?;
    }
    Ok(text)
}

/// A stop as data, if an input is refused.
fn refusal_of<'a>(stop: Stop<'a>, call: Call<'a>) -> Option<Refusal<'a>> {
    let (file, kind) = match stop {
        Stop::Unreadable(name, _) => (Some(name), "Unreadable"),
        Stop::NoReport(JudgeFault::TooLarge(input), _) => (Some(call.file(input)), "TooLarge"),
        Stop::NoReport(JudgeFault::TooManyPlanners, _) => (None, "TooManyPlanners"),
        Stop::NoReport(JudgeFault::TooManyPlans, _) => (None, "TooManyPlans"),
        Stop::NoReport(JudgeFault::Domain(fault), line) => {
            return Some(refusal_in(call.domain, line, fault));
        }
        Stop::NoReport(JudgeFault::Problem(fault), line) => {
            return Some(refusal_in(call.problem, line, fault));
        }
        Stop::NoReport(_, _) | Stop::OutOfMemory => return None,
    };
    Some(Refusal {
        file,
        line: None,
        bytes: None,
        kind,
    })
}

/// The refusal of the text of a file.
fn refusal_in(file: &str, line: u32, fault: ReadFault) -> Refusal<'_> {
    Refusal {
        file: Some(file),
        line: Some(line),
        bytes: Some(fault.span),
        kind: fault.kind.word(),
    }
}

/// Adds a refusal as an object.
fn push_object(text: &mut Text, refusal: Refusal<'_>) -> Result<(), AllocError> {
    text.push(b"{\"type\":\"refused\",\"file\":")?;
    match refusal.file {
        Some(file) => push_json_string(text, file.as_bytes())?,
        None => text.push(b"null")?,
    }
    text.push(b",\"line\":")?;
    match refusal.line {
        Some(line) => text.push_number(line as usize)?,
        None => text.push(b"null")?,
    }
    text.push(b",\"bytes\":")?;
    match refusal.bytes {
        Some(span) => push_pair(text, span)?,
        None => text.push(b"null")?,
    }
    text.push(b",\"kind\":")?;
    push_json_string(text, refusal.kind.as_bytes())?;
    text.push(b"}\n")
}

/// Adds the offsets of a span as an array.
fn push_pair(text: &mut Text, span: Span) -> Result<(), AllocError> {
    text.push(b"[")?;
    text.push_number(span.start as usize)?;
    text.push(b",")?;
    text.push_number(span.end as usize)?;
    text.push(b"]")
}

/// Adds the line of a stop.
fn push_line(text: &mut Text, stop: Stop<'_>, call: Call<'_>) -> Result<(), AllocError> {
    match stop {
        Stop::Unreadable(name, _) => {
            text.push(b"cannot read ")?;
            text.push(name.as_bytes())?;
        }
        Stop::NoReport(fault, line) => {
            push_fault(text, fault, line, name_in(fault, call).as_bytes())?;
        }
        Stop::OutOfMemory => text.push(b"out of memory")?,
    }
    text.push(b"\n")
}

/// The name of the file that a fault is about, if it is one of size.
fn name_in(fault: JudgeFault, call: Call<'_>) -> &str {
    match fault {
        JudgeFault::TooLarge(input) => call.file(input),
        _ => "",
    }
}

/// Adds the second line of a stop, if there is one.
fn push_more(text: &mut Text, stop: Stop<'_>, call: Call<'_>) -> Result<(), AllocError> {
    match stop {
        Stop::Unreadable(name, absence) => text.push(why_unreadable(name, absence)),
        Stop::NoReport(JudgeFault::Domain(_) | JudgeFault::Problem(_), _) => push_advice(
            text, call,
        ),
        Stop::NoReport(_, _) | Stop::OutOfMemory => Ok(()),
    }
}

/// Why the file with a name cannot be read, as a line, as far as the system says it.
fn why_unreadable(name: &str, absence: Absence) -> &'static [u8] {
    match absence {
        Absence::Missing if name == STANDARD_INPUT => b"standard input is closed\n",
        Absence::Missing => b"there is no such file\n",
        Absence::Folder => b"it is a folder\n",
        Absence::Forbidden => b"permission denied\n",
        Absence::Other => b"",
    }
}

/// Adds the call that explains a refusal, unless a name in it could disturb the terminal.
fn push_advice(text: &mut Text, call: Call<'_>) -> Result<(), AllocError> {
    if !is_quiet(call.domain) || !is_quiet(call.problem) {
        return Ok(());
    }
    text.push(b"run plan_judge explain --domain ")?;
    push_shell_word(text, call.domain)?;
    text.push(b" --problem ")?;
    push_shell_word(text, call.problem)?;
    match call.dialect {
        Dialect::Strips => {}
        Dialect::Ipc => text.push(b" --dialect ipc")?,
        Dialect::Adl => text.push(b" --dialect adl")?,
    }
    text.push(b" to see where and why\n")
}

/// Whether a word has only bytes that a terminal shows.
fn is_quiet(word: &str) -> bool {
    word.as_bytes().iter().all(|b| matches!(*b, b' '..=b'~'))
}

/// Adds a word as a shell has to be given it.
fn push_shell_word(text: &mut Text, word: &str) -> Result<(), AllocError> {
    if !word.is_empty() && word.as_bytes().iter().all(|b| is_bare(*b)) {
        return text.push(word.as_bytes());
    }
    text.push(b"'")?;
    for byte in word.as_bytes() {
        match *byte {
            b'\'' => text.push(b"'\\''")?,
            other => text.push(&[other])?,
        }
    }
    text.push(b"'")
}

/// Whether a byte means nothing to a shell.
fn is_bare(byte: u8) -> bool {
    byte.is_ascii_alphanumeric()
        || matches!(
            byte,
            b'.' | b'_' | b'/' | b'+' | b'-' | b'=' | b'@' | b':' | b',' | b'%'
        )
}

/// Adds bytes in such a way that a line on a terminal can show them: those that are not printing characters of ASCII as `\x0a`.
pub(crate) fn push_escaped(text: &mut Text, bytes: &[u8]) -> Result<(), AllocError> {
    for byte in bytes {
        match *byte {
            b' '..=b'~' => text.push(&[*byte])?,
            other => text.push(&[b'\\', b'x', hex_digit(other / 16), hex_digit(other % 16)])?,
        }
    }
    Ok(())
}

/// A digit of a number to the base 16.
fn hex_digit(digit: u8) -> u8
    requires { digit < 16 }
{
    if digit < 10 {
        b'0' + digit
    } else {
        b'a' - 10 + digit
    }
}
