//! The text of a quantifier's variables, such as `(?x ?y - block ?z)`.
ghost use Rattle.std.specs.Prelude.{◌≡◌, ◌++◌, OnOk, map};
ghost use Rattle.report_text.specs.Notation.{separated, joined, listed, continued};
ghost use Rattle.report_text.specs.Conditions.{type_word, types_text, is_object, types_words, variable_words, group_words, groups_words};

use crate::notation::{
    Notation, push_closing, push_head, push_lead, push_opening, push_separator, push_variable,
    push_word,
};
use crate::text::Text;
use std::alloc::AllocError;
use strips_task::{Name, Task, VariableGroup};

/// Adds the name of the type with a number; a number that no type has adds an empty word.
fn push_type(
    text: &mut Text,
    notation: Notation,
    task: &Task,
    number: u16,
) -> Result<(), AllocError>
    ensures { OnOk result (text.new ≡ text.old ++ type_word notation task.now number) }
{
    if usize::from(number) < task.type_count() {
        return push_word(text, notation, task.type_name(number).as_bytes());
    }
    push_word(text, notation, b"")
}

/// Adds the names of types, each behind a separator.
fn push_alternatives(
    text: &mut Text,
    notation: Notation,
    task: &Task,
    types: &[u16],
) -> Result<(), AllocError>
    ensures { OnOk result (text.new ≡ text.old ++ separated notation (map (type_word notation task.now) types.now)) }
{
    for number in types {
        push_separator(text, notation)?;
        push_type(text, notation, task, *number)?;
    }
    Ok(())
}

/// Adds the types of variables: a single one by its name, and others as `(either a b)`.
fn push_types(
    text: &mut Text,
    notation: Notation,
    task: &Task,
    types: &[u16],
) -> Result<(), AllocError>
    ensures { OnOk result (text.new ≡ text.old ++ types_text notation task.now types.now) }
{
    if let [number] = types {
        return push_type(text, notation, task, *number);
    }
    push_head(text, notation, b"either")?;
    push_alternatives(text, notation, task, types)?;
    push_closing(text, notation)
}

/// Whether these types are `object` alone.
fn is_object(types: &[u16]) -> bool
    ensures { result ≡ is_object types.now }
{
    match types {
        [number] => *number == 0,
        _ => false,
    }
}

/// Adds variables with their question marks to a list, which has a part already or not.
fn push_names(
    text: &mut Text,
    notation: Notation,
    begun: bool,
    names: &[Name],
) -> Result<(), AllocError>
    ensures { OnOk result (text.new ≡ text.old ++ continued notation begun (variable_words notation names.now)) }
{
    let mut has_part = begun;
    for name in names {
        push_lead(text, notation, has_part)?;
        push_variable(text, notation, name.as_bytes())?;
        has_part = true;
    }
    Ok(())
}

/// Adds a hyphen and types to a list of variables, which has a part already or not.
fn push_hyphen_types(
    text: &mut Text,
    notation: Notation,
    task: &Task,
    begun: bool,
    types: &[u16],
) -> Result<(), AllocError>
    ensures { OnOk result (text.new ≡ text.old ++ continued notation begun (types_words notation task.now types.now)) }
{
    push_lead(text, notation, begun)?;
    push_word(text, notation, b"-")?;
    push_separator(text, notation)?;
    push_types(text, notation, task, types)
}

/// Adds a group to a list of variables, which has a part already or not.
fn push_group(
    text: &mut Text,
    notation: Notation,
    task: &Task,
    begun: bool,
    group: &VariableGroup,
    last: bool,
) -> Result<(), AllocError>
    ensures { OnOk result (text.new ≡ text.old ++ continued notation begun (group_words notation task.now last group.now)) }
{
    let names = group.names.as_slice();
    let types = group.types.as_slice();
    push_names(text, notation, begun, names)?;
    if last && is_object(types) {
        return Ok(());
    }
    let has_part = begun || !names.is_empty();
    push_hyphen_types(text, notation, task, has_part, types)
}

/// Adds the groups of a list of variables.
fn push_groups(
    text: &mut Text,
    notation: Notation,
    task: &Task,
    groups: &[VariableGroup],
) -> Result<(), AllocError>
    ensures { OnOk result (text.new ≡ text.old ++ joined notation (groups_words notation task.now groups.now)) }
{
    let mut begun = false;
    for index in 0..groups.len() {
        let last = index + 1 == groups.len();
        push_group(text, notation, task, begun, &groups[index], last)?;
        begun = true;
    }
    Ok(())
}

/// Adds the list of a quantifier's variables.
pub(crate) fn push_variables(
    text: &mut Text,
    notation: Notation,
    task: &Task,
    groups: &[VariableGroup],
) -> Result<(), AllocError>
    ensures { OnOk result (text.new ≡ text.old ++ listed notation (groups_words notation task.now groups.now)) }
{
    push_opening(text, notation)?;
    push_groups(text, notation, task, groups)?;
    push_closing(text, notation)
}
