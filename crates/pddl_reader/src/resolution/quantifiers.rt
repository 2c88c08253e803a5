//! The variables of quantifiers.

ghost use Rattle.std.specs.Prelude.{◌≡◌, ◌≤◌, drop, length, IfOk};
ghost use Rattle.std.specs.Map.{keys_of};
ghost use Rattle.strips_task.specs.WellFormed.{most_types};
ghost use Rattle.pddl_syntax.specs.Forms.{variable_group_form, variable_groups, word_forms};
ghost use Rattle.pddl_syntax.specs.Reading.{Gives, Puts};
ghost use Rattle.pddl_reader.specs.Resolved.{bound_form};
ghost use Rattle.pddl_reader.specs.Bindings.{entered, outside};
ghost use Rattle.pddl_reader.specs.Scopes.{all_unmarked, bound_by, group_bound, unmarked};

use crate::resolution::scope::Scope;
use crate::resolution::variables::{DeclaredVariables, declare_group};
use pddl_syntax::{FaultKind, ReadFault, VariableGroup, Word};
use pddl_words::{WordKind, word_kind};
use std::alloc::Global;
use strips_task::{Name, NameTable, Seq};

/// The variables of a quantifier: as terms in its body name them, and in groups as formulas keep them.
#[derive(Drop)]
pub(crate) struct BoundVariables<'a> {
    pub(crate) declared: DeclaredVariables<'a>,
    pub(crate) groups: Seq<strips_task::VariableGroup>,
}

/// A quantifier whose variables a scope binds.
#[derive(Drop)]
pub(crate) struct Binding {
    /// Its variables in their groups.
    pub(crate) groups: Seq<strips_task::VariableGroup>,
    /// How many variables the quantifiers around it bind.
    pub(crate) depth: usize,
}

/// What follows the first byte of a word.
fn behind_mark(word: &[u8]) -> &[u8]
    ensures { result.now ≡ drop 1 word.now }
{
    match word {
        [_, name @ ..] => name,
        [] => word,
    }
}

/// The name of a variable without its question mark. The grammar lets only variables through, and each of them has a name.
#[tactic(auto, unfolding(pddl_words::specs::Kinds::kind_of_word), using(crate::proofs::QuantifierMeaning::unmarked_steps))]
fn unmarked(alloc: Global, word: Word<'_>) -> Result<Name, ReadFault>
    ensures { Gives (λ name. name) result (unmarked word.entry.text.now) }
{
    let name = behind_mark(word.text);
    match word_kind(name) {
        WordKind::Name => Ok(Name::from_word(alloc, name)?),
        _ => Err(ReadFault::new(FaultKind::Expected, word.span)),
    }
}

/// The names of variables without their question marks.
#[tactic(auto, using(crate::proofs::QuantifierMeaning::all_unmarked_steps))]
fn all_unmarked(alloc: Global, words: &[Word<'_>]) -> Result<Seq<Name>, ReadFault>
    ensures { Gives (λ names. names) result (all_unmarked (word_forms words.now)) }
{
    let mut names = Seq::new(alloc);
    'words: for word in words {
        names.push(unmarked(alloc, *word)?)?;
    }
    Ok(names)
}

/// Declares the variables of a group.
#[tactic(auto, using(crate::proofs::QuantifierMeaning::group_steps))]
fn bind_group<'a>(
    alloc: Global,
    types: &NameTable<()>,
    bound: &mut BoundVariables<'a>,
    group: &VariableGroup<'a>,
) -> Result<(), ReadFault>
    requires { length types.now ≤ most_types }
    ensures { Puts result (group_bound (keys_of types.now) (bound_form bound.old) (variable_group_form group.now)) (bound_form bound.new) }
{
    let types = declare_group(alloc, types, &mut bound.declared, group)?;
    let names = all_unmarked(alloc, group.variables.as_slice())?;
    bound
        .groups
        .push(strips_task::VariableGroup { names, types })?;
    Ok(())
}

/// The variables that the groups of a quantifier bind.
#[tactic(auto, using(crate::proofs::Through::through_steps, crate::proofs::QuantifierMeaning::bound_steps))]
fn bound_variables<'a>(
    alloc: Global,
    types: &NameTable<()>,
    groups: &[VariableGroup<'a>],
) -> Result<BoundVariables<'a>, ReadFault>
    requires { length types.now ≤ most_types }
    ensures { Gives bound_form result (bound_by (keys_of types.now) (variable_groups groups.now)) }
{
    let mut bound = BoundVariables {
        declared: DeclaredVariables::none(alloc),
        groups: Seq::new(alloc),
    };
    'groups: for group in groups {
        bind_group(alloc, types, &mut bound, group)?;
    }
    Ok(bound)
}

/// Binds the variables of a quantifier, before its body is read.
#[tactic(auto, using(crate::proofs::QuantifierMeaning::entered_steps))]
pub(crate) fn bind<'a>(
    alloc: Global,
    types: &NameTable<()>,
    scope: &mut Scope<'a>,
    groups: &[VariableGroup<'a>],
) -> Result<Binding, ReadFault>
    requires { length types.now ≤ most_types }
    ensures meaning { Gives (λ binding. (binding.groups, scope.new)) result (entered scope.old (bound_by (keys_of types.now) (variable_groups groups.now))) }
    ensures depth { IfOk result (λ binding. outside binding.depth scope.new ≡ scope.old) }
{
    let BoundVariables { declared, groups } = bound_variables(alloc, types, groups)?;
    let depth = scope.depth();
    scope.enter(declared)?;
    Ok(Binding { groups, depth })
}
