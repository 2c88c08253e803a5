//! The two notations of conditions. Both have the same words in the same lists: `(not (p a))` is `["not",["p","a"]]` in JSON.
ghost use Rattle.std.specs.Prelude.{◌≡◌, ◌++◌, OnOk, codes};
ghost use Rattle.report_text.specs.Notation.{word, opening, separator, closing, lead};

use crate::escapes::{push_inside, push_json_string};
use crate::text::Text;
use std::alloc::AllocError;

/// How a condition is written.
#[derive(Clone, Copy, PartialEq, Eq)]
pub enum Notation {
    /// As PDDL.
    Pddl,
    /// As lists of JSON strings.
    Json,
}

/// Adds a word.
pub(crate) fn push_word(text: &mut Text, notation: Notation, bytes: &[u8]) -> Result<(), AllocError>
    ensures { OnOk result (text.new ≡ text.old ++ word notation bytes.now) }
{
    match notation {
        Notation::Pddl => text.push(bytes),
        Notation::Json => push_json_string(text, bytes),
    }
}

/// Adds a variable with its question mark.
#[tactic(auto, unfolding(crate::specs::Pieces::json_string, crate::specs::Pieces::string_byte))]
pub(crate) fn push_variable(
    text: &mut Text,
    notation: Notation,
    name: &[u8],
) -> Result<(), AllocError>
    ensures { OnOk result (text.new ≡ text.old ++ word notation (codes "?" ++ name.now)) }
{
    match notation {
        Notation::Pddl => {
            text.push(b"?")?;
            text.push(name)
        }
        Notation::Json => {
            text.push(b"\"?")?;
            push_inside(text, name)?;
            text.push(b"\"")
        }
    }
}

/// Begins a list.
pub(crate) fn push_opening(text: &mut Text, notation: Notation) -> Result<(), AllocError>
    ensures { OnOk result (text.new ≡ text.old ++ opening notation) }
{
    match notation {
        Notation::Pddl => text.push(b"("),
        Notation::Json => text.push(b"["),
    }
}

/// Adds what is between two parts of a list.
pub(crate) fn push_separator(text: &mut Text, notation: Notation) -> Result<(), AllocError>
    ensures { OnOk result (text.new ≡ text.old ++ separator notation) }
{
    match notation {
        Notation::Pddl => text.push(b" "),
        Notation::Json => text.push(b","),
    }
}

/// Ends a list.
pub(crate) fn push_closing(text: &mut Text, notation: Notation) -> Result<(), AllocError>
    ensures { OnOk result (text.new ≡ text.old ++ closing notation) }
{
    match notation {
        Notation::Pddl => text.push(b")"),
        Notation::Json => text.push(b"]"),
    }
}

/// Adds a separator if the list has a part already.
pub(crate) fn push_lead(text: &mut Text, notation: Notation, begun: bool) -> Result<(), AllocError>
    ensures { OnOk result (text.new ≡ text.old ++ lead notation begun) }
{
    if begun {
        return push_separator(text, notation);
    }
    Ok(())
}

/// Begins a list with a word.
pub(crate) fn push_head(text: &mut Text, notation: Notation, bytes: &[u8]) -> Result<(), AllocError>
    ensures { OnOk result (text.new ≡ text.old ++ (opening notation ++ word notation bytes.now)) }
{
    push_opening(text, notation)?;
    push_word(text, notation, bytes)
}

/// Begins the list of a `not`.
#[tactic(auto, unfolding(crate::specs::Pieces::json_string, crate::specs::Pieces::string_byte))]
pub(crate) fn push_not(text: &mut Text, notation: Notation) -> Result<(), AllocError>
    ensures { OnOk result (text.new ≡ text.old ++ ((opening notation ++ word notation (codes "not")) ++ separator notation)) }
{
    match notation {
        Notation::Pddl => text.push(b"(not "),
        Notation::Json => text.push(b"[\"not\","),
    }
}
