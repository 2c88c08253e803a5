//! What is true after some steps of a plan, and how each atom was changed last.

use crate::effects::{Change, Firing, StepChanges, changes_of};
use indexmap::IndexMap;
use std::alloc::{AllocError, Global};
use strips_task::{Atom, Seed, StepView, Task};

/// The atoms that are true: the initial ones, and what was changed since.
pub(crate) struct World<'t> {
    alloc: Global,
    task: &'t Task,
    changed: IndexMap<Atom, LastChange<'t>, Seed>,
}

impl Drop for World<'_> {
    fn drop(self) {
        let Self {
            alloc: _,
            task: _,
            changed: _,
        } = self;
    }
}

/// The last change of an atom.
#[derive(Drop)]
pub(crate) struct LastChange<'t> {
    /// Whether the atom is true since then.
    pub(crate) holds: bool,
    /// The number of the step that changed it, from 1.
    pub(crate) step: usize,
    /// How the effect happened.
    pub(crate) firing: Firing<'t>,
}

impl<'t> World<'t> {
    /// The world at the start.
    pub(crate) fn new(alloc: Global, task: &'t Task) -> Self {
        World {
            alloc,
            task,
            changed: IndexMap::with_hasher(alloc, task.initial_atoms().seed()),
        }
    }

    /// Where what is found in the world takes its memory.
    pub(crate) fn alloc(&self) -> Global {
        self.alloc
    }

    /// The task whose world it is.
    pub(crate) fn task(&self) -> &'t Task {
        self.task
    }

    /// Whether an atom is true.
    pub(crate) fn holds(&self, atom: &Atom) -> bool {
        match self.changed.get(atom) {
            Some(change) => change.holds,
            None => self.task.initial_atoms().number_of(atom).is_some(),
        }
    }

    /// The last change of an atom, if a step changed it.
    pub(crate) fn last_change(&self, atom: &Atom) -> Option<&LastChange<'t>> {
        self.changed.get(atom)
    }

    /// What a step would change.
    pub(crate) fn changes_of(&self, step: StepView<'_>) -> Result<StepChanges<'t>, AllocError> {
        changes_of(self, step)
    }

    /// Makes the changes of the step with a number.
    pub(crate) fn change(
        &mut self,
        step: usize,
        changes: StepChanges<'t>,
    ) -> Result<(), AllocError> {
        let StepChanges { deleted, added } = changes;
        self.set_all(step, false, deleted)?;
        self.set_all(step, true, added)
    }

    /// Makes atoms true or false.
    fn set_all(
        &mut self,
        step: usize,
        holds: bool,
        changes: Vec<Change<'t>>,
    ) -> Result<(), AllocError> {
        for change in changes {
            let Change { atom, firing } = change;
            self.changed.insert(
                atom,
                LastChange {
                    holds,
                    step,
                    firing,
                },
            )?;
        }
        Ok(())
    }
}
