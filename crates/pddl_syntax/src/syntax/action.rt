//! Actions: a name, and parts in any order, each at most once.

ghost use Rattle.std.specs.Prelude.{◌≡◌};
ghost use Rattle.pddl_syntax.specs.Levels.{here};
ghost use Rattle.pddl_syntax.specs.Reading.{ReadsInto, ReadsList};
ghost use Rattle.pddl_syntax.specs.Forms.{action_syntax_form, parts_form};
ghost use Rattle.pddl_syntax.specs.Syntax.{action_of, is_part_given, no_parts, part_by, parts_of};

use crate::dialect::Dialect;
use crate::fault::{FaultKind, ReadFault};
use crate::heads::{ActionPart, Context, Scope, action_part, is_name};
use crate::syntax::effect::effect;
use crate::syntax::formula::formula;
use crate::syntax::lists::enter_list;
use crate::syntax::refusals::keyword_fault;
use crate::syntax::variables::kept_variables;
use crate::syntax::{ActionParts, ActionSyntax};
use crate::walk::{Item, NameWord, Walk};
use std::alloc::Global;

/// Whether the part is given already.
#[tactic(auto, unfolding(crate::specs::Syntax::is_part_given, crate::specs::Forms::parts_form), using(crate::proofs::ActionLemmas::given_steps))]
fn is_given(parts: &ActionParts<'_>, part: ActionPart) -> bool
    ensures { result ≡ is_part_given part (parts_form parts.now) }
{
    match part {
        ActionPart::Parameters => parts.parameters.is_some(),
        ActionPart::Precondition => parts.precondition.is_some(),
        ActionPart::Effect => parts.effect.is_some(),
    }
}

/// Reads the value of a part.
#[tactic(auto, using(crate::proofs::ActionLemmas::part_steps), unfolding(crate::specs::Forms::parts_form))]
fn part<'a>(
    alloc: Global,
    dialect: Dialect,
    walk: &mut Walk<'a>,
    part: ActionPart,
    parts: &mut ActionParts<'a>,
) -> Result<(), ReadFault>
    ensures { ReadsInto result (part_by dialect part (parts_form parts.old)) (here walk.old.cursor) (here walk.new.cursor)
        (parts_form parts.new) }
{
    match part {
        ActionPart::Parameters => parts.parameters = Some(kept_variables(alloc, walk)?),
        ActionPart::Precondition => {
            let context = Context::Condition;
            parts.precondition = Some(formula(alloc, walk, Scope { dialect, context })?);
        }
        ActionPart::Effect => {
            let context = Context::Effect;
            parts.effect = Some(effect(alloc, walk, Scope { dialect, context })?);
        }
    }
    Ok(())
}

/// Reads the parts of an action.
#[tactic(auto, using(crate::proofs::ActionLemmas::parts_steps))]
fn parts<'a>(
    alloc: Global,
    dialect: Dialect,
    walk: &mut Walk<'a>,
) -> Result<ActionParts<'a>, ReadFault>
    ensures { ReadsList parts_form result (parts_of dialect no_parts) (here walk.old.cursor) (here walk.new.cursor) }
{
    let mut parts = ActionParts {
        parameters: None,
        precondition: None,
        effect: None,
    };
    'parts: loop {
        match walk.next() {
            Item::Close(_) => return Ok(parts),
            Item::Open(span) => return Err(ReadFault::new(FaultKind::Expected, span)),
            Item::Text(word) => {
                let Some(named) = action_part(word.text) else {
                    return Err(keyword_fault(word));
                };
                if is_given(&parts, named) {
                    return Err(ReadFault::new(FaultKind::Repeated, word.span));
                }
                enter_list(walk)?;
                part(alloc, dialect, walk, named, &mut parts)?;
            }
        }
    }
}

/// Reads an action after its keyword.
#[tactic(auto, using(crate::proofs::ActionLemmas::action_steps))]
pub(crate) fn action<'a>(
    alloc: Global,
    dialect: Dialect,
    walk: &mut Walk<'a>,
) -> Result<ActionSyntax<'a>, ReadFault>
    ensures { ReadsList action_syntax_form result (action_of dialect) (here walk.old.cursor) (here walk.new.cursor) }
{
    match walk.next() {
        Item::Text(name) => {
            if !is_name(name.text) {
                return Err(ReadFault::new(FaultKind::Expected, name.span));
            }
            let parts = parts(alloc, dialect, walk)?;
            Ok(ActionSyntax {
                name: NameWord::new(name),
                parts,
            })
        }
        Item::Open(span) => Err(ReadFault::new(FaultKind::Expected, span)),
        Item::Close(span) => Err(ReadFault::new(FaultKind::Expected, span)),
    }
}
