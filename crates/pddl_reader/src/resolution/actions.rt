//! The table of actions.

ghost use Rattle.std.specs.Prelude.{◌≡◌, ◌≤◌, ◌++◌, length, [], ◌∷◌, None, OnOk, Some};
ghost use Rattle.strips_task.specs.Names.{number_named};
ghost use Rattle.strips_task.specs.WellFormed.{most_types, most_variables};
ghost use Rattle.std.specs.Map.{keys_of};
ghost use Rattle.pddl_reader.specs.Resolved.{variables_form, vocabulary_form};
ghost use Rattle.pddl_syntax.specs.Forms.{action_forms, action_syntax_form};
ghost use Rattle.pddl_syntax.specs.Reading.{Gives, Puts};
ghost use Rattle.pddl_reader.specs.Domain.{action_by, action_meant, actions_from, no_actions, tables_with, with_action_of};

use crate::resolution::conditions::part_conditions;
use crate::resolution::effects::{Effects, part_effects};
use crate::resolution::names::new_name;
use crate::resolution::parts::part_variables;
use crate::resolution::scope::Scope;
use crate::resolution::variables::{DeclaredVariables, declared_variables};
use crate::resolution::vocabulary::Vocabulary;
use pddl_syntax::{ActionSyntax, ReadFault};
use std::alloc::{AllocError, Global};
use strips_task::{Action, Alternatives, Increases, Name, NameTable, Seq};

/// The table of the declared predicates, with the types that each argument may have.
pub(crate) type Predicates = NameTable<Seq<Alternatives>>;

/// An action, and by how much it increases the total cost.
#[derive(Drop)]
pub(crate) struct CostedAction {
    action: Action,
    increases: Increases,
}

/// The action that syntax stands for, with these parameters.
#[tactic(auto, using(crate::proofs::ActionMeaning::body_steps))]
fn action_by<'a>(
    alloc: Global,
    types: &NameTable<()>,
    vocabulary: &Vocabulary<'_>,
    parameters: DeclaredVariables<'a>,
    syntax: &ActionSyntax<'a>,
) -> Result<CostedAction, ReadFault>
    requires types { length types.now ≤ most_types }
    requires parameters { length parameters.names.items ≤ most_variables }
    ensures { Gives (λ action. action) result
        (action_by (keys_of types.now) (vocabulary_form vocabulary.now) (action_syntax_form syntax.now) (Some (variables_form parameters.entry))) }
{
    let mut scope = Scope::outermost(alloc, parameters);
    let precondition = &syntax.parts.precondition;
    let pre = part_conditions(alloc, types, &vocabulary.atoms, &mut scope, precondition)?;
    let effect = &syntax.parts.effect;
    let effects = part_effects(alloc, types, vocabulary, &mut scope, effect)?;
    let Effects {
        add,
        del,
        inner,
        increases,
    } = effects;
    Ok(CostedAction {
        action: Action {
            params: scope.into_parameter_types(),
            pre,
            add,
            del,
            effects: inner,
        },
        increases,
    })
}

/// The action that syntax stands for.
#[tactic(auto, using(crate::proofs::ActionMeaning::action_steps))]
fn action(
    alloc: Global,
    types: &NameTable<()>,
    vocabulary: &Vocabulary<'_>,
    syntax: &ActionSyntax<'_>,
) -> Result<CostedAction, ReadFault>
    requires { length types.now ≤ most_types }
    ensures { Gives (λ action. action) result (action_meant (keys_of types.now) (vocabulary_form vocabulary.now) (action_syntax_form syntax.now)) }
{
    let declared = part_variables(alloc, &syntax.parts.parameters)?;
    let parameters = declared_variables(alloc, types, declared.as_slice())?;
    action_by(alloc, types, vocabulary, parameters, syntax)
}

/// The table of actions, and the increases of each by its number.
#[derive(Drop)]
pub(crate) struct ActionTables {
    pub(crate) actions: NameTable<Action>,
    pub(crate) increases: Seq<Increases>,
}

/// Adds an action under a new name.
fn put_action(tables: &mut ActionTables, name: Name, action: CostedAction) -> Result<(), AllocError>
    requires { number_named tables.old.actions name ≡ None }
    ensures { OnOk result (tables.new ≡ tables_with tables.old action (tables.old.actions ++ (name, action.action) ∷ [])) }
{
    let CostedAction { action, increases } = action;
    tables.actions.push(name, action)?;
    tables.increases.push(increases)?;
    Ok(())
}

/// Declares one more action.
#[tactic(auto, using(crate::proofs::ActionMeaning::declaration_steps))]
fn declare_action(
    alloc: Global,
    types: &NameTable<()>,
    vocabulary: &Vocabulary<'_>,
    tables: &mut ActionTables,
    syntax: &ActionSyntax<'_>,
) -> Result<(), ReadFault>
    requires { length types.now ≤ most_types }
    ensures { Puts result (with_action_of (keys_of types.now) (vocabulary_form vocabulary.now) tables.old (action_syntax_form syntax.now)) tables.new }
{
    let name = new_name(alloc, &tables.actions, syntax.name)?;
    let action = action(alloc, types, vocabulary, syntax)?;
    put_action(tables, name, action)?;
    Ok(())
}

/// Declares the actions.
#[tactic(auto, using(crate::proofs::Through::through_steps, crate::proofs::ActionMeaning::actions_steps))]
pub(crate) fn actions(
    alloc: Global,
    types: &NameTable<()>,
    vocabulary: &Vocabulary<'_>,
    declared: &[ActionSyntax<'_>],
) -> Result<ActionTables, ReadFault>
    requires { length types.now ≤ most_types }
    ensures { Gives (λ tables. tables) result (actions_from (keys_of types.now) (vocabulary_form vocabulary.now) no_actions (action_forms declared.now)) }
{
    let mut tables = ActionTables {
        actions: NameTable::new(alloc, types.seed()),
        increases: Seq::new(alloc),
    };
    'actions: for action in declared {
        declare_action(alloc, types, vocabulary, &mut tables, action)?;
    }
    Ok(tables)
}
