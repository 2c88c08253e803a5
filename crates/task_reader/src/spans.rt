//! Where in a text a quantified variable is, by its index among those of an action or of the goal.
//!
//! The text is read again for it, and its formulas and effects are gone over in the same order as those of the task. No contract says that the span is right.
ghost use Rattle.std.specs.Prelude.{◌≡◌, ◌≢◌, None};
ghost use Rattle.pddl_syntax.specs.Trees.{text_fault};

use pddl_reader::{Dialect, FaultKind, ReadFault};
use pddl_syntax::{
    ActionParts, EffectNode, EffectSyntax, FormulaNode, FormulaSyntax, Passed, VariableGroup,
    domain_text, problem_text,
};
use pddl_tokens::Span;
use std::alloc::Global;

/// The fault of an action that passes the limit of bindings, at this one of its quantified variables, unless memory runs out.
pub(crate) fn action_fault(
    alloc: Global,
    dialect: Dialect,
    domain: &[u8],
    action: u16,
    variable: u64,
) -> ReadFault
    requires { text_fault domain.now ≡ None }
    ensures { result.kind ≢ FaultKind.OutOfMemory → result.kind ≡ FaultKind.TooMany }
{
    match domain_text(alloc, dialect, domain) {
        Ok(syntax) => match syntax.sections.actions.get(usize::from(action)) {
            Some(action) => fault_at(in_action(&action.parts, variable)),
            None => fault_at(Place::Further(variable)),
        },
        Err(_) => ReadFault::at(FaultKind::OutOfMemory, 0, 0),
    }
}

/// The fault of a goal that passes the limit of bindings, at this one of its quantified variables, unless memory runs out.
pub(crate) fn goal_fault(
    alloc: Global,
    dialect: Dialect,
    problem: &[u8],
    variable: u64,
) -> ReadFault
    requires { text_fault problem.now ≡ None }
    ensures { result.kind ≢ FaultKind.OutOfMemory → result.kind ≡ FaultKind.TooMany }
{
    match problem_text(alloc, dialect, problem, &mut Passed) {
        Ok(syntax) => fault_at(in_formula(&syntax.goal, variable)),
        Err(_) => ReadFault::at(FaultKind::OutOfMemory, 0, 0),
    }
}

/// Where a variable is.
#[derive(Clone, Copy)]
enum Place {
    /// Here.
    At(Span),
    /// Not among the variables so far, but this many after them.
    Further(u64),
}

/// The fault at a variable, or at the start of the text if there is none, which does not happen.
fn fault_at(place: Place) -> ReadFault
    ensures { result.kind ≡ FaultKind.TooMany }
{
    match place {
        Place::At(span) => ReadFault::new(FaultKind::TooMany, span),
        Place::Further(_) => ReadFault::at(FaultKind::TooMany, 0, 0),
    }
}

/// Where a quantified variable of an action is.
fn in_action(parts: &ActionParts<'_>, variable: u64) -> Place {
    let place = match &parts.precondition {
        Some(formula) => in_formula(formula, variable),
        None => Place::Further(variable),
    };
    match (place, &parts.effect) {
        (Place::Further(left), Some(effect)) => in_effect(effect, left),
        _ => place,
    }
}

/// Where a quantified variable of a formula is.
#[cycle(formulas)]
fn in_formula(formula: &FormulaSyntax<'_>, variable: u64) -> Place {
    match formula.node() {
        FormulaNode::Atom(_, _) => Place::Further(variable),
        FormulaNode::Equality(_, _) => Place::Further(variable),
        FormulaNode::Not(body) => in_formula(body, variable),
        FormulaNode::And(parts) => in_formulas(parts, variable),
        FormulaNode::Or(parts) => in_formulas(parts, variable),
        FormulaNode::Imply(premise, conclusion) => match in_formula(premise, variable) {
            Place::At(span) => Place::At(span),
            Place::Further(left) => in_formula(conclusion, left),
        },
        FormulaNode::Exists(groups, body) => in_bound(groups, body, variable),
        FormulaNode::ForAll(groups, body) => in_bound(groups, body, variable),
    }
}

/// Where a variable of a quantifier is, or of one inside it.
#[cycle(formulas)]
fn in_bound(groups: &[VariableGroup<'_>], body: &FormulaSyntax<'_>, variable: u64) -> Place {
    match in_groups(groups, variable) {
        Place::At(span) => Place::At(span),
        Place::Further(left) => in_formula(body, left),
    }
}

/// Where a quantified variable of several formulas is.
#[cycle(formulas)]
fn in_formulas(formulas: &[FormulaSyntax<'_>], variable: u64) -> Place {
    let mut left = variable;
    for formula in formulas {
        match in_formula(formula, left) {
            Place::At(span) => return Place::At(span),
            Place::Further(further) => left = further,
        }
    }
    Place::Further(left)
}

/// Where a quantified variable of an effect is.
#[cycle(effects)]
fn in_effect(effect: &EffectSyntax<'_>, variable: u64) -> Place {
    match effect.node() {
        EffectNode::Atom(_, _) => Place::Further(variable),
        EffectNode::Increase(_) => Place::Further(variable),
        EffectNode::And(parts) => in_effects(parts, variable),
        EffectNode::When(condition, body) => match in_formula(condition, variable) {
            Place::At(span) => Place::At(span),
            Place::Further(left) => in_effect(body, left),
        },
        EffectNode::ForAll(groups, body) => match in_groups(groups, variable) {
            Place::At(span) => Place::At(span),
            Place::Further(left) => in_effect(body, left),
        },
    }
}

/// Where a quantified variable of several effects is.
#[cycle(effects)]
fn in_effects(effects: &[EffectSyntax<'_>], variable: u64) -> Place {
    let mut left = variable;
    for effect in effects {
        match in_effect(effect, left) {
            Place::At(span) => return Place::At(span),
            Place::Further(further) => left = further,
        }
    }
    Place::Further(left)
}

/// Where a variable of a quantifier is.
fn in_groups(groups: &[VariableGroup<'_>], variable: u64) -> Place {
    let mut left = variable;
    for group in groups {
        let variables = group.variables.as_slice();
        if left < variables.len() as u64 {
            return Place::At(variables[left as usize].span);
        }
        left -= variables.len() as u64;
    }
    Place::Further(left)
}
