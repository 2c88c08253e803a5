//! Which predicates can be true at all, and what the actions of a task do, for warnings.

use crate::lint::ReadText;
use crate::names::Budget;
use crate::outline::Sort;
use std::alloc::{AllocError, Global};
use strips_task::{Action, Effect, EffectNode, KeptAtom, Pattern, Task};

/// For each predicate whether an initial atom or an effect has it.
pub(crate) struct Support {
    predicates: Vec<bool>,
}

impl Drop for Support {
    fn drop(self) {
        let Self { predicates: _ } = self;
    }
}

impl Support {
    /// Gathers the predicates of the initial atoms and of what actions add.
    pub(crate) fn new(
        alloc: Global,
        task: &Task,
        domain: &ReadText<'_>,
    ) -> Result<Self, AllocError> {
        let mut support = Support {
            predicates: Vec::with_capacity(alloc, task.pred_count())?,
        };
        for _ in 0..task.pred_count() {
            support.predicates.push(false)?;
        }
        support.note_initial(task);
        for (number, name) in domain.outline.as_slice().iter().enumerate() {
            if name.sort == Sort::Action
                && let Some(action) = action_named(task, domain, number)?
            {
                support.note_added(action);
            }
        }
        Ok(support)
    }

    /// Whether a predicate can be true.
    pub(crate) fn has(&self, predicate: u16) -> bool {
        self.predicates
            .as_slice()
            .get(usize::from(predicate))
            .copied()
            .unwrap_or(true)
    }

    fn note(&mut self, predicate: u16) {
        if let Some(has) = self.predicates.get_mut(usize::from(predicate)) {
            *has = true;
        }
    }

    fn note_initial(&mut self, task: &Task) {
        let atoms = task.initial_atoms();
        for index in 0..atoms.len() {
            self.note(match atoms.get(index) {
                KeptAtom::Few(key) => key.pred(),
                KeptAtom::Many(atom) => atom.pred,
            });
        }
    }

    fn note_added(&mut self, action: &Action) {
        for pattern in action.add.as_slice() {
            self.note(pattern.pred);
        }
        note_all(self, action.effects.as_slice());
    }
}

/// Notes what some effects may add.
#[cycle(support)]
fn note_all(support: &mut Support, effects: &[Effect]) {
    for effect in effects {
        note_effect(support, effect);
    }
}

/// Notes what an effect may add.
#[cycle(support)]
fn note_effect(support: &mut Support, effect: &Effect) {
    match effect.node() {
        EffectNode::Atom(true, pattern) => support.note(pattern.pred),
        EffectNode::Atom(false, _) => {}
        EffectNode::And(effects) => note_all(support, effects),
        EffectNode::When(_, body) => note_effect(support, body),
        EffectNode::ForAll(_, body) => note_effect(support, body),
    }
}

/// The action whose name has a number among the names of the domain.
pub(crate) fn action_named<'t>(
    task: &'t Task,
    domain: &ReadText<'_>,
    number: usize,
) -> Result<Option<&'t Action>, AllocError> {
    let Some(name) = domain.outline.as_slice().get(number) else {
        return Ok(None);
    };
    let word = domain
        .bytes(name.name)
        .to_ascii_lowercase(domain.literals.alloc())?;
    Ok(match task.action_named(word.as_slice()) {
        Some(action) => Some(task.action(action)),
        None => None,
    })
}

/// Whether what an action deletes by one of its patterns is also added. Without budget the answer is no.
pub(crate) fn is_added(action: &Action, index: usize, budget: &mut Budget) -> bool {
    let Some(deleted) = action.del.as_slice().get(index) else {
        return false;
    };
    budget.take(action.add.len())
        && action
            .add
            .as_slice()
            .iter()
            .any(|added| is_same(added, deleted))
}

/// Whether two patterns are the same.
fn is_same(pattern: &Pattern, other: &Pattern) -> bool {
    pattern.pred == other.pred && pattern.terms.as_slice() == other.terms.as_slice()
}
