//! Functions are declared like predicates; effects increase `total-cost` by their values.

ghost use Rattle.std.specs.Prelude.{◌≡◌, ◌<◌, ◌≤◌, length, [], IfOk, IfSome};
ghost use Rattle.strips_task.specs.WellFormed.{most_predicates, most_types};
ghost use Rattle.std.specs.Map.{keys_of};
ghost use Rattle.pddl_syntax.specs.Forms.{amount_form, predicate_form, predicate_forms, variable_groups};
ghost use Rattle.pddl_syntax.specs.Optional.{guard};
ghost use Rattle.pddl_syntax.specs.Reading.{Allows, Gives, Puts};
ghost use Rattle.pddl_reader.specs.Domain.{functions_from, may_have, with_function};
ghost use Rattle.pddl_reader.specs.Functions.{amount_meant, costs_of, total_cost_number, with_increase};
ghost use Rattle.pddl_reader.specs.Resolved.{known_form, vocabulary_form};
ghost use Rattle.pddl_reader.specs.Variables.{argument_types_of};

use crate::resolution::actions::Predicates;
use crate::resolution::atoms::pattern;
use crate::resolution::names::new_name;
use crate::resolution::scope::Scope;
use crate::resolution::tables::Declared;
use crate::resolution::variables::argument_types;
use crate::resolution::vocabulary::Vocabulary;
use pddl_syntax::{
    AmountSyntax, FaultKind, IncreaseSyntax, NameWord, PredicateSyntax, ReadFault, VariableGroup,
};
use std::alloc::Global;
use strips_task::{
    Alternatives, Amount, Costs, FunctionValues, Increases, MOST_INCREASES, Name, NameTable,
    Pattern, Seq,
};

/// The number of the function `total-cost`, if it is declared.
#[tactic(auto, unfolding(crate::specs::Functions::total_cost_number))]
fn total_cost(functions: &Predicates) -> Option<usize>
    ensures number { result ≡ total_cost_number functions.now }
    ensures within { IfSome result (λ number. number < length functions.now) }
{
    functions.number_of(b"total-cost")
}

/// Tests that a function of this name may have these variables: `total-cost` has none.
#[tactic(auto, using(crate::proofs::FunctionLemmas::variables_steps))]
fn check_variables(
    name: &Name,
    word: NameWord<'_>,
    variables: &[VariableGroup<'_>],
) -> Result<(), ReadFault>
    ensures { Allows result (may_have name.now (variable_groups variables.now)) }
{
    if variables.is_empty() {
        return Ok(());
    }
    if name.as_bytes() == b"total-cost".as_slice() {
        return Err(ReadFault::new(FaultKind::WrongCount, word.span));
    }
    Ok(())
}

/// The types of a function's arguments, if a function of this name may have them.
#[tactic(auto, using(crate::proofs::FunctionLemmas::function_types_steps))]
fn function_types(
    alloc: Global,
    types: &NameTable<()>,
    name: &Name,
    function: &PredicateSyntax<'_>,
) -> Result<Seq<Alternatives>, ReadFault>
    requires { length types.now ≤ most_types }
    ensures { Gives (λ argument_types. argument_types) result (guard (may_have name.now function.now.variables) (argument_types_of (keys_of types.now) function.now.variables)) }
{
    let variables = function.variables.groups(alloc)?;
    check_variables(name, function.name, variables.as_slice())?;
    argument_types(alloc, types, variables.as_slice())
}

/// Declares one more function.
#[tactic(auto, using(crate::proofs::FunctionLemmas::function_steps))]
fn declare_function(
    alloc: Global,
    types: &NameTable<()>,
    table: &mut Predicates,
    function: &PredicateSyntax<'_>,
) -> Result<(), ReadFault>
    requires few { length types.now ≤ most_types }
    requires room { length table.old ≤ most_predicates }
    ensures within { length table.new ≤ most_predicates }
    ensures given { Puts result (with_function (keys_of types.now) table.old (predicate_form function.now)) table.new }
{
    let name = new_name(alloc, table, function.name)?;
    let argument_types = function_types(alloc, types, &name, function)?;
    table.push(name, argument_types)?;
    Ok(())
}

/// Declares the functions.
#[tactic(auto, using(crate::proofs::Through::through_steps, crate::proofs::FunctionLemmas::functions_steps))]
pub(crate) fn functions(
    alloc: Global,
    types: &NameTable<()>,
    declared: &[PredicateSyntax<'_>],
) -> Result<Predicates, ReadFault>
    requires { length types.now ≤ most_types }
    ensures within { IfOk result (λ table. length table ≤ most_predicates) }
    ensures given { Gives (λ table. table) result (functions_from (keys_of types.now) [] (predicate_forms declared.now)) }
{
    let mut table = NameTable::new(alloc, types.seed());
    'functions: for function in declared {
        declare_function(alloc, types, &mut table, function)?;
    }
    Ok(table)
}

/// The amount that an increase names.
#[tactic(auto, using(crate::proofs::FunctionLemmas::amount_steps))]
fn amount(
    alloc: Global,
    functions: &Declared<'_>,
    scope: &Scope<'_>,
    syntax: &AmountSyntax<'_>,
) -> Result<Amount, ReadFault>
    ensures { Gives (λ amount. amount) result (amount_meant (known_form functions.now) scope.now (amount_form syntax.now)) }
{
    match syntax {
        AmountSyntax::Number(number) => Ok(Amount::Number(*number)),
        AmountSyntax::Function(function) => {
            let Pattern { pred, terms } = pattern(alloc, functions, scope, function)?;
            Ok(Amount::Function {
                function: pred,
                terms,
            })
        }
    }
}

/// Appends an increase to those of an action.
#[tactic(auto, using(crate::proofs::FunctionLemmas::increase_steps))]
pub(crate) fn put_increase(
    alloc: Global,
    vocabulary: &Vocabulary<'_>,
    scope: &Scope<'_>,
    increases: &mut Increases,
    increase: &IncreaseSyntax<'_>,
) -> Result<(), ReadFault>
    ensures { Puts result (with_increase (vocabulary_form vocabulary.now) scope.now increases.old (amount_form increase.now.amount)) increases.new }
{
    if increases.len() >= MOST_INCREASES {
        return Err(ReadFault::new(FaultKind::TooMany, increase.span));
    }
    if total_cost(vocabulary.functions.predicates).is_none() {
        return Err(ReadFault::new(FaultKind::UnknownName, increase.target.span));
    }
    let amount = amount(alloc, &vocabulary.functions, scope, &increase.amount)?;
    increases.push(amount)?;
    Ok(())
}

/// What a task says about costs, if `total-cost` is declared.
#[tactic(auto, using(crate::proofs::FunctionLemmas::costs_steps))]
pub(crate) fn costs(
    functions: &Predicates,
    increases: Seq<Increases>,
    values: FunctionValues,
) -> Option<Costs>
    requires { length functions.now ≤ most_predicates }
    ensures { result ≡ costs_of functions.now increases values }
{
    match total_cost(functions) {
        Some(number) => Some(Costs {
            total_cost: number as u16,
            increases,
            values,
        }),
        None => None,
    }
}
