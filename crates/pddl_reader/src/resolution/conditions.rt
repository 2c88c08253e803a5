//! What preconditions, goals and the conditions of effects stand for.
//!
//! The recursion goes as deep as lists nest in the text, at most 64 deep.

ghost use Rattle.std.specs.Prelude.{◌≡◌, ◌≤◌, length, unwrap_or, OnOk, Some};
ghost use Rattle.std.specs.Map.{keys_of};
ghost use Rattle.std.specs.Option.{option_map};
ghost use Rattle.formulas.specs.Tree as tree;
ghost use Rattle.strips_task.specs.WellFormed.{most_types};
ghost use Rattle.pddl_syntax.specs.Forms.{atom_form, variable_groups};
ghost use Rattle.pddl_syntax.specs.Optional.{through};
ghost use Rattle.pddl_syntax.specs.Reading.{Gives, Puts};
ghost use Rattle.pddl_syntax.specs.Syntax.{conjunction, no_formulas, formulas_of};
ghost use Rattle.pddl_reader.specs.Conditions.{all_conjuncts, conditions_of, conjuncts, equality_by, joined, joined_form, quantification, quantified_form, tree_meant, with_condition};
ghost use Rattle.pddl_reader.specs.Declarations.{pattern_of, term_named};
ghost use Rattle.pddl_reader.specs.Resolved.{known_form};
ghost use Rattle.pddl_reader.specs.Bindings.{outside};

use crate::resolution::atoms::pattern;
use crate::resolution::quantifiers::{Binding, bind};
use crate::resolution::scope::Scope;
use crate::resolution::tables::{Context, Declared};
use crate::resolution::terms::term;
use pddl_syntax::{
    AtomSyntax, EqualitySyntax, FormulaNode, FormulaSyntax, ReadFault, VariableGroup,
};
use std::alloc::Global;
use strips_task::{Formula, NameTable, Node, Seq};

/// The formula that an equality stands for, or with `positive` false its negation.
#[tactic(auto, using(crate::proofs::ConditionMeaning::equality_steps))]
fn equality(
    context: &Context<'_>,
    scope: &Scope<'_>,
    positive: bool,
    sides: &EqualitySyntax<'_>,
) -> Result<Formula, ReadFault>
    ensures { Gives (λ formula. formula) result (equality_by positive (term_named (known_form context.now.known) scope.now sides.now.left.text.now)
        (term_named (known_form context.now.known) scope.now sides.now.right.text.now)) }
{
    let left = term(context.alloc, &context.known, scope, sides.left)?;
    let right = term(context.alloc, &context.known, scope, sides.right)?;
    Ok(Formula::new(Node::Equal(positive, left, right)))
}

/// The formula that an atom stands for, or with `positive` false its negation.
#[tactic(auto, using(crate::proofs::ConditionMeaning::literal_steps))]
fn literal(
    context: &Context<'_>,
    scope: &Scope<'_>,
    positive: bool,
    atom: &AtomSyntax<'_>,
) -> Result<Formula, ReadFault>
    ensures { Gives (λ formula. formula) result (option_map (tree.atom positive) (pattern_of (known_form context.now.known) scope.now (atom_form atom.now))) }
{
    let pattern = pattern(context.alloc, &context.known, scope, atom)?;
    Ok(Formula::new(Node::Atom(positive, pattern)))
}

/// A formula that must not hold.
fn negation(alloc: Global, body: Formula) -> Result<Formula, ReadFault>
    ensures { Gives (λ formula. formula) result (Some (tree.negation body)) }
{
    Ok(Formula::new(Node::Not(Box::new(alloc, body)?)))
}

/// A premise and a conclusion, which has to hold if the premise does.
fn implication(alloc: Global, premise: Formula, conclusion: Formula) -> Result<Formula, ReadFault>
    ensures { Gives (λ formula. formula) result (Some (tree.implication premise conclusion)) }
{
    let premise = Box::new(alloc, premise)?;
    let conclusion = Box::new(alloc, conclusion)?;
    Ok(Formula::new(Node::Imply(premise, conclusion)))
}

/// How formulas are put together.
#[derive(Clone, Copy)]
pub(crate) enum Junction {
    And,
    Or,
}

/// The formula that has these parts.
#[tactic(auto, using(crate::proofs::ConditionMeaning::joined_steps))]
fn joined(junction: Junction, parts: Vec<Formula>) -> Formula
    ensures { result ≡ joined junction parts.items }
{
    match junction {
        Junction::And => Formula::new(Node::And(parts)),
        Junction::Or => Formula::new(Node::Or(parts)),
    }
}

/// Whether a formula has to hold for some choice of objects, or for every choice.
#[derive(Clone, Copy)]
pub(crate) enum Quantifier {
    Exists,
    ForAll,
}

/// Leaves a quantifier behind its body, and puts the body under it.
#[tactic(auto, using(crate::proofs::ConditionMeaning::quantification_steps))]
fn quantification(
    alloc: Global,
    scope: &mut Scope<'_>,
    quantifier: Quantifier,
    binding: Binding,
    body: Formula,
) -> Result<Formula, ReadFault>
    ensures formula { Gives (λ formula. formula) result (Some (quantification quantifier binding.groups body)) }
    ensures left { scope.new ≡ outside binding.depth scope.old }
{
    let Binding { groups, depth } = binding;
    scope.leave(depth);
    let body = Box::new(alloc, body)?;
    match quantifier {
        Quantifier::Exists => Ok(Formula::new(Node::Exists(groups, body))),
        Quantifier::ForAll => Ok(Formula::new(Node::ForAll(groups, body))),
    }
}

/// The formula that syntax stands for in a scope.
#[cycle(formulas)]
#[tactic(auto, using(crate::proofs::ConditionMeaning::formula_steps))]
pub(crate) fn formula<'a>(
    context: &Context<'_>,
    scope: &mut Scope<'a>,
    syntax: &FormulaSyntax<'a>,
) -> Result<Formula, ReadFault>
    ensures meaning { Gives (λ formula. formula) result (tree_meant (keys_of context.now.types.now) (known_form context.now.known) scope.old syntax.now) }
    ensures same { OnOk result (scope.new ≡ scope.old) }
{
    match syntax.node() {
        FormulaNode::Atom(positive, atom) => literal(context, scope, *positive, atom),
        FormulaNode::Equality(positive, sides) => equality(context, scope, *positive, sides),
        FormulaNode::Not(body) => negation(context.alloc, formula(context, scope, body)?),
        FormulaNode::And(parts) => compound(context, scope, Junction::And, parts),
        FormulaNode::Or(parts) => compound(context, scope, Junction::Or, parts),
        FormulaNode::Imply(premise, conclusion) => {
            let premise = formula(context, scope, premise)?;
            let conclusion = formula(context, scope, conclusion)?;
            implication(context.alloc, premise, conclusion)
        }
        FormulaNode::Exists(groups, body) => {
            quantified(context, scope, Quantifier::Exists, groups, body)
        }
        FormulaNode::ForAll(groups, body) => {
            quantified(context, scope, Quantifier::ForAll, groups, body)
        }
    }
}

/// The formula that several stand for under `and` or `or`.
#[cycle(formulas)]
#[tactic(auto, using(crate::proofs::ConditionMeaning::compound_steps))]
fn compound<'a>(
    context: &Context<'_>,
    scope: &mut Scope<'a>,
    junction: Junction,
    parts: &[FormulaSyntax<'a>],
) -> Result<Formula, ReadFault>
    ensures meaning { Gives (λ formula. formula) result
        (tree_meant (keys_of context.now.types.now) (known_form context.now.known) scope.old (joined_form junction (formulas_of parts.now))) }
    ensures same { OnOk result (scope.new ≡ scope.old) }
{
    let mut formulas = Vec::new(context.alloc);
    'parts: for part in parts {
        formulas.push(formula(context, scope, part)?)?;
    }
    Ok(joined(junction, formulas))
}

/// The formula that another stands for under a quantifier.
#[cycle(formulas)]
#[tactic(auto, using(crate::proofs::ConditionMeaning::quantified_steps))]
fn quantified<'a>(
    context: &Context<'_>,
    scope: &mut Scope<'a>,
    quantifier: Quantifier,
    groups: &[VariableGroup<'a>],
    body: &FormulaSyntax<'a>,
) -> Result<Formula, ReadFault>
    ensures meaning { Gives (λ formula. formula) result
        (tree_meant (keys_of context.now.types.now) (known_form context.now.known) scope.old (quantified_form quantifier (variable_groups groups.now) body.now)) }
    ensures same { OnOk result (scope.new ≡ scope.old) }
{
    let binding = bind(context.alloc, context.types, scope, groups)?;
    let body = formula(context, scope, body)?;
    quantification(context.alloc, scope, quantifier, binding, body)
}

/// Appends what a formula stands for. A goal may have hundreds of thousands of conjuncts, so each goes directly where it stays.
#[tactic(auto, using(crate::proofs::ConditionMeaning::condition_steps))]
fn put_condition<'a>(
    context: &Context<'_>,
    scope: &mut Scope<'a>,
    conditions: &mut Seq<Formula>,
    syntax: &FormulaSyntax<'a>,
) -> Result<(), ReadFault>
    ensures meaning { Puts result (with_condition (keys_of context.now.types.now) (known_form context.now.known) scope.old conditions.old syntax.now) conditions.new }
    ensures same { OnOk result (scope.new ≡ scope.old) }
{
    conditions.push(formula(context, scope, syntax)?)?;
    Ok(())
}

/// Appends what the conjuncts of a formula stand for.
#[cycle(conjuncts)]
#[tactic(auto, using(crate::proofs::ConditionMeaning::conjunct_steps))]
fn put_conjuncts<'a>(
    context: &Context<'_>,
    scope: &mut Scope<'a>,
    conditions: &mut Seq<Formula>,
    syntax: &FormulaSyntax<'a>,
) -> Result<(), ReadFault>
    ensures meaning { Puts result (through (with_condition (keys_of context.now.types.now) (known_form context.now.known) scope.old) conditions.old (conjuncts syntax.now)) conditions.new }
    ensures same { OnOk result (scope.new ≡ scope.old) }
{
    match syntax.node() {
        FormulaNode::And(parts) => put_all_conjuncts(context, scope, conditions, parts),
        _ => put_condition(context, scope, conditions, syntax),
    }
}

/// The same for each formula of a list.
#[cycle(conjuncts)]
#[tactic(auto, using(crate::proofs::ConditionMeaning::all_conjuncts_steps))]
fn put_all_conjuncts<'a>(
    context: &Context<'_>,
    scope: &mut Scope<'a>,
    conditions: &mut Seq<Formula>,
    parts: &[FormulaSyntax<'a>],
) -> Result<(), ReadFault>
    ensures meaning { Puts result
        (through (with_condition (keys_of context.now.types.now) (known_form context.now.known) scope.old) conditions.old (all_conjuncts (formulas_of parts.now))) conditions.new }
    ensures same { OnOk result (scope.new ≡ scope.old) }
{
    'parts: for part in parts {
        put_conjuncts(context, scope, conditions, part)?;
    }
    Ok(())
}

/// The conditions that a precondition or a goal stands for: one for each of its conjuncts, through any depth of `and` in `and`.
#[tactic(auto, using(crate::proofs::ConditionMeaning::conditions_steps))]
pub(crate) fn conditions<'a>(
    alloc: Global,
    types: &NameTable<()>,
    known: &Declared<'_>,
    scope: &mut Scope<'a>,
    syntax: &FormulaSyntax<'a>,
) -> Result<Seq<Formula>, ReadFault>
    requires { length types.now ≤ most_types }
    ensures meaning { Gives (λ conditions. conditions) result (conditions_of (keys_of types.now) (known_form known.now) scope.old syntax.now) }
    ensures same { OnOk result (scope.new ≡ scope.old) }
{
    let context = Context {
        alloc,
        types,
        known: *known,
    };
    let mut conditions = Seq::new(alloc);
    put_conjuncts(&context, scope, &mut conditions, syntax)?;
    Ok(conditions)
}

/// The same for a precondition, of which there are no conditions if it is not given.
#[tactic(auto, using(crate::proofs::ConditionMeaning::conditions_steps))]
pub(crate) fn part_conditions<'a>(
    alloc: Global,
    types: &NameTable<()>,
    known: &Declared<'_>,
    scope: &mut Scope<'a>,
    part: &Option<FormulaSyntax<'a>>,
) -> Result<Seq<Formula>, ReadFault>
    requires { length types.now ≤ most_types }
    ensures meaning { Gives (λ conditions. conditions) result
        (conditions_of (keys_of types.now) (known_form known.now) scope.old (unwrap_or part.now (conjunction no_formulas))) }
    ensures same { OnOk result (scope.new ≡ scope.old) }
{
    match part {
        Some(syntax) => conditions(alloc, types, known, scope, syntax),
        None => Ok(Seq::new(alloc)),
    }
}
