//! The dialect and the format that the words of a command line name.
ghost use Rattle.std.specs.Prelude.{◌≡◌, map};
ghost use Rattle.std.specs.List.{list_all};
ghost use Rattle.std.specs.String.{string_bytes};
ghost use Rattle.command_line.specs.Options.{can_show, dialect_asked, dialect_named, format_asked, format_named, is_control, is_plain};

use crate::words::value_of;
use pddl_syntax::Dialect;
use report_text::Format;

/// The dialect that some words ask for: STRIPS, unless they name another. `None` if they name an unknown one.
pub fn dialect_asked(words: &[String]) -> Option<Dialect>
    ensures { result ≡ dialect_asked (map string_bytes words.now) }
{
    match value_of(words, "--dialect") {
        Some(name) => dialect_named(name),
        None => Some(Dialect::Strips),
    }
}

/// The dialect with a name.
fn dialect_named(name: &str) -> Option<Dialect>
    ensures { result ≡ dialect_named name.now }
{
    if name == "strips" {
        Some(Dialect::Strips)
    } else if name == "ipc" {
        Some(Dialect::Ipc)
    } else if name == "adl" {
        Some(Dialect::Adl)
    } else {
        None
    }
}

/// The format that some words ask for: lines, unless they name another. `None` if they name an unknown one.
pub fn format_asked(words: &[String]) -> Option<Format>
    ensures { result ≡ format_asked (map string_bytes words.now) }
{
    match value_of(words, "--format") {
        Some(name) => format_named(name),
        None => Some(Format::Lines),
    }
}

/// The format with a name.
fn format_named(name: &str) -> Option<Format>
    ensures { result ≡ format_named name.now }
{
    if name == "lines" {
        Some(Format::Lines)
    } else if name == "tsv" {
        Some(Format::Table)
    } else if name == "json" {
        Some(Format::Json)
    } else {
        None
    }
}

/// Whether a report in a format can show planners with these names.
pub fn can_show(format: Format, names: &[&str]) -> bool
    ensures { result ≡ can_show format (map (λ name. name.now) names.now) }
{
    match format {
        Format::Lines => are_plain(names),
        Format::Table | Format::Json => true,
    }
}

/// Whether no name has a control character.
#[tactic(auto, using(crate::proofs::PlainNames::plain_names))]
fn are_plain(names: &[&str]) -> bool
    ensures { result ≡ list_all is_plain (map (λ name. name.now) names.now) }
{
    for name in names {
        if !is_plain(name) {
            return false;
        }
    }
    true
}

/// Whether a name has no control character.
pub fn is_plain(name: &str) -> bool
    ensures { result ≡ is_plain name.now }
{
    name.as_bytes().iter().all(|b| !is_control(*b))
}

/// Whether a byte moves the cursor of a terminal or ends a line.
fn is_control(byte: u8) -> bool
    ensures { result ≡ is_control byte }
{
    byte < 32 || byte == 127
}
