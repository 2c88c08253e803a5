//! The types that variables may have, and lists of variables.

ghost use Rattle.std.specs.Prelude.{◌≡◌, ◌<◌, ◌≤◌, ◌+◌, nat_le, length, IfOk, IfSome, OnOk, Some};
ghost use Rattle.strips_task.specs.WellFormed.{most_types, most_variables};
ghost use Rattle.std.specs.Map.{keys_of};
ghost use Rattle.pddl_syntax.specs.Forms.{name_forms, variable_group_form, variable_groups, word_forms};
ghost use Rattle.pddl_syntax.specs.Optional.{through};
ghost use Rattle.pddl_syntax.specs.Reading.{Allows, Gives, Puts};
ghost use Rattle.pddl_reader.specs.Resolved.{variables_form};
ghost use Rattle.pddl_reader.specs.Variables.{alternatives_of, group_named, with_group_types, variable_named, variable_number, variables_of, argument_types_with, argument_types_of};

use crate::resolution::objects::type_number;
use pddl_syntax::{FaultKind, NameWord, ReadFault, VariableGroup, VariableList, Word};
use pddl_tokens::same_folded;
use std::alloc::{AllocError, Global};
use strips_task::{Alternatives, MOST_ALTERNATIVES, MOST_VARIABLES, NameTable, Seq};

/// The types that words name.
#[tactic(auto, using(crate::proofs::VariableMeaning::alternative_steps))]
fn alternatives(
    alloc: Global,
    types: &NameTable<()>,
    words: &[NameWord<'_>],
) -> Result<Alternatives, ReadFault>
    requires { length types.now ≤ most_types }
    ensures { Gives (λ numbers. numbers) result (alternatives_of (keys_of types.now) (name_forms words.now)) }
{
    let mut numbers = Seq::new(alloc);
    'words: for word in words {
        if numbers.len() >= MOST_ALTERNATIVES {
            return Err(ReadFault::new(FaultKind::TooMany, word.span));
        }
        let Some(number) = type_number(alloc, types, *word)? else {
            return Err(ReadFault::new(FaultKind::UnknownName, word.span));
        };
        numbers.push(number)?;
    }
    Ok(numbers)
}

/// A copy of the types.
fn try_clone(alloc: Global, types: &Alternatives) -> Result<Alternatives, AllocError>
    ensures { IfOk result (λ copy. copy ≡ types.now) }
{
    let mut numbers = Vec::new(alloc);
    numbers.extend_from_slice(types.as_slice())?;
    Ok(Seq::from_vec(numbers))
}

/// Appends these types for each variable to the types of arguments.
#[tactic(auto, using(crate::proofs::VariableMeaning::variable_steps))]
fn put_argument_types(
    alloc: Global,
    argument_types: &mut Seq<Alternatives>,
    variables: &[Word<'_>],
    types: &Alternatives,
) -> Result<(), AllocError>
    ensures { OnOk result (argument_types.new ≡ argument_types_with argument_types.old (word_forms variables.now) types.now) }
{
    'variables: for _ in variables {
        argument_types.push(try_clone(alloc, types)?)?;
    }
    Ok(())
}

/// Tests that these variables may follow `count` others.
fn check_room(count: usize, variables: &[Word<'_>]) -> Result<(), ReadFault>
    requires { count ≤ most_variables }
    ensures { Allows result (nat_le (count + length variables.now) most_variables) }
{
    if variables.len() > MOST_VARIABLES - count {
        let first = variables[MOST_VARIABLES - count];
        return Err(ReadFault::new(FaultKind::TooMany, first.span));
    }
    Ok(())
}

/// Appends the types of a group's arguments.
#[tactic(auto, using(crate::proofs::VariableMeaning::group_steps))]
fn put_group(
    alloc: Global,
    types: &NameTable<()>,
    argument_types: &mut Seq<Alternatives>,
    group: &VariableGroup<'_>,
) -> Result<(), ReadFault>
    requires few { length types.now ≤ most_types }
    requires room { length argument_types.old ≤ most_variables }
    ensures { Puts result (with_group_types (keys_of types.now) argument_types.old (variable_group_form group.now)) argument_types.new }
{
    check_room(argument_types.len(), group.variables.as_slice())?;
    let alternatives = alternatives(alloc, types, group.kinds.as_slice())?;
    put_argument_types(
        alloc,
        argument_types,
        group.variables.as_slice(),
        &alternatives,
    )?;
    Ok(())
}

/// The types of a predicate's arguments: for each of its variables those that it may have.
#[tactic(auto, using(crate::proofs::VariableMeaning::argument_types_steps))]
pub(crate) fn argument_types(
    alloc: Global,
    types: &NameTable<()>,
    groups: &[VariableGroup<'_>],
) -> Result<Seq<Alternatives>, ReadFault>
    requires { length types.now ≤ most_types }
    ensures { Gives (λ argument_types. argument_types) result (argument_types_of (keys_of types.now) (variable_groups groups.now)) }
{
    let mut argument_types = Seq::new(alloc);
    'groups: for group in groups {
        put_group(alloc, types, &mut argument_types, group)?;
    }
    Ok(argument_types)
}

/// The types of the arguments that a list of variables stands for.
pub(crate) fn listed_types(
    alloc: Global,
    types: &NameTable<()>,
    variables: &VariableList<'_>,
) -> Result<Seq<Alternatives>, ReadFault>
    requires { length types.now ≤ most_types }
    ensures { Gives (λ argument_types. argument_types) result (argument_types_of (keys_of types.now) variables.now) }
{
    let groups = variables.groups(alloc)?;
    argument_types(alloc, types, groups.as_slice())
}

/// The variables of a list: their names, and for each the types that it may have.
#[derive(Drop)]
pub(crate) struct DeclaredVariables<'a> {
    pub(crate) names: Vec<Word<'a>>,
    pub(crate) types: Seq<Alternatives>,
}

impl DeclaredVariables<'_> {
    ghost use Rattle.std.specs.Prelude.{◌≡◌, []};

    /// No variables. Takes no memory.
    pub(crate) fn none(alloc: Global) -> Self
        ensures names { result.names.items ≡ [] }
        ensures types { result.types ≡ [] }
    {
        DeclaredVariables {
            names: Vec::new(alloc),
            types: Seq::new(alloc),
        }
    }
}

/// The number of the variable with a name. There are few variables in a list, so a walk over them is quick.
#[tactic(auto, using(crate::proofs::VariableMeaning::position_steps))]
pub(crate) fn variable_number(names: &[Word<'_>], word: &[u8]) -> Option<usize>
    ensures number { result ≡ variable_number (word_forms names.now) word.now }
    ensures within { IfSome result (λ number. number < length names.now) }
{
    'names: for number in 0..names.len() {
        if same_folded(word, names[number].text) {
            return Some(number);
        }
    }
    None
}

/// Names one more variable.
#[tactic(auto, using(crate::proofs::VariableMeaning::variable_named_steps))]
fn name_variable<'a>(names: &mut Vec<Word<'a>>, word: Word<'a>) -> Result<(), ReadFault>
    ensures { Puts result (variable_named (word_forms names.old.items) word.entry.text.now) (word_forms names.new.items) }
{
    if names.len() >= MOST_VARIABLES {
        return Err(ReadFault::new(FaultKind::TooMany, word.span));
    }
    if variable_number(names.as_slice(), word.text).is_some() {
        return Err(ReadFault::new(FaultKind::Repeated, word.span));
    }
    names.push(word)?;
    Ok(())
}

/// Names the variables of a group.
#[tactic(auto, using(crate::proofs::Through::through_steps, crate::proofs::VariableMeaning::words_steps))]
fn name_variables<'a>(names: &mut Vec<Word<'a>>, words: &[Word<'a>]) -> Result<(), ReadFault>
    ensures { Puts result (through variable_named (word_forms names.old.items) (word_forms words.now)) (word_forms names.new.items) }
{
    'words: for word in words {
        name_variable(names, *word)?;
    }
    Ok(())
}

/// Declares the variables of a group, and gives the types that they may have.
#[tactic(auto, using(crate::proofs::VariableMeaning::group_named_steps))]
pub(crate) fn declare_group<'a>(
    alloc: Global,
    types: &NameTable<()>,
    declared: &mut DeclaredVariables<'a>,
    group: &VariableGroup<'a>,
) -> Result<Alternatives, ReadFault>
    requires { length types.now ≤ most_types }
    ensures variables { Gives (λ _. variables_form declared.new) result
        (group_named (keys_of types.now) (variables_form declared.old) (variable_group_form group.now)) }
    ensures types { IfOk result (λ alternatives. alternatives_of (keys_of types.now) (name_forms group.now.kinds.items) ≡ Some alternatives) }
{
    name_variables(&mut declared.names, group.variables.as_slice())?;
    let alternatives = alternatives(alloc, types, group.kinds.as_slice())?;
    put_argument_types(
        alloc,
        &mut declared.types,
        group.variables.as_slice(),
        &alternatives,
    )?;
    Ok(alternatives)
}

/// Declares the variables of all groups.
#[tactic(auto, using(crate::proofs::Through::through_steps, crate::proofs::VariableMeaning::declared_steps))]
fn declare_groups<'a>(
    alloc: Global,
    types: &NameTable<()>,
    declared: &mut DeclaredVariables<'a>,
    groups: &[VariableGroup<'a>],
) -> Result<(), ReadFault>
    requires { length types.now ≤ most_types }
    ensures { Puts result (through (group_named (keys_of types.now)) (variables_form declared.old) (variable_groups groups.now))
        (variables_form declared.new) }
{
    'groups: for group in groups {
        let _types = declare_group(alloc, types, declared, group)?;
    }
    Ok(())
}

/// The variables that groups declare: the parameters of an action.
#[tactic(auto, using(crate::proofs::VariableMeaning::variables_steps))]
pub(crate) fn declared_variables<'a>(
    alloc: Global,
    types: &NameTable<()>,
    groups: &[VariableGroup<'a>],
) -> Result<DeclaredVariables<'a>, ReadFault>
    requires { length types.now ≤ most_types }
    ensures { Gives variables_form result (variables_of (keys_of types.now) (variable_groups groups.now)) }
{
    let mut declared = DeclaredVariables::none(alloc);
    declare_groups(alloc, types, &mut declared, groups)?;
    Ok(declared)
}
