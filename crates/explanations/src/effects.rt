//! What a step changes.
//!
//! The conditions of effects are evaluated in the world before the step, and an atom that a step both deletes and adds is true afterwards.

use crate::atoms::atom_of;
use crate::choices::Choices;
use crate::evaluation::holds;
use crate::world::World;
use indexmap::IndexMap;
use std::alloc::{AllocError, Global};
use strips_task::{
    Action, Atom, Effect, EffectNode, Formula, Pattern, Seed, StepView, Task, VariableGroup,
};

/// A condition of an effect.
#[derive(Clone, Copy)]
pub(crate) struct Guard<'t> {
    pub(crate) condition: &'t Formula,
    /// How many variables are bound around it.
    pub(crate) depth: usize,
}

/// How an effect happened: under which conditions, and for which objects. Of an effect without conditions no objects are kept.
pub(crate) struct Firing<'t> {
    pub(crate) guards: Vec<Guard<'t>>,
    /// The objects of the parameters of the action.
    pub(crate) objects: Vec<u16>,
    /// Those of the variables that are bound around the effect.
    pub(crate) bound: Vec<u16>,
}

impl Drop for Firing<'_> {
    fn drop(self) {
        let Self {
            guards: _,
            objects: _,
            bound: _,
        } = self;
    }
}

/// An atom that a step makes true or false.
#[derive(Drop)]
pub(crate) struct Change<'t> {
    pub(crate) atom: Atom,
    pub(crate) firing: Firing<'t>,
}

/// What a step changes, each atom once: first what effects without conditions change, then the others in the order of the text.
#[derive(Drop)]
pub(crate) struct StepChanges<'t> {
    pub(crate) deleted: Vec<Change<'t>>,
    pub(crate) added: Vec<Change<'t>>,
}

/// The effects of a step, as far as they were gathered.
struct Gathering<'w, 't> {
    world: &'w World<'t>,
    objects: Vec<u16>,
    /// The objects of the variables around the effect at hand.
    bound: Vec<u16>,
    /// The conditions around it.
    guards: Vec<Guard<'t>>,
    deleted: IndexMap<Atom, Firing<'t>, Seed>,
    added: IndexMap<Atom, Firing<'t>, Seed>,
}

impl Drop for Gathering<'_, '_> {
    fn drop(self) {
        let Self {
            world: _,
            objects: _,
            bound: _,
            guards: _,
            deleted: _,
            added: _,
        } = self;
    }
}

/// What a step changes in a world.
pub(crate) fn changes_of<'t>(
    world: &World<'t>,
    step: StepView<'_>,
) -> Result<StepChanges<'t>, AllocError> {
    let alloc = world.alloc();
    let objects = objects_of(alloc, world.task(), step)?;
    let mut gathering = Gathering::new(world, objects);
    if let Some(action) = action_of(world.task(), step) {
        gathering.take_action(action)?;
    }
    gathering.finish()
}

/// The action of a step, if there is one.
fn action_of<'t>(task: &'t Task, step: StepView<'_>) -> Option<&'t Action> {
    match task.action_named(step.action()) {
        Some(number) => Some(task.action(number)),
        None => None,
    }
}

/// The numbers of the objects of a step. A name that no object has gets a number that no object has.
fn objects_of(alloc: Global, task: &Task, step: StepView<'_>) -> Result<Vec<u16>, AllocError> {
    let mut objects = Vec::new(alloc);
    for index in 0..step.arg_count() {
        objects.push(task.object_named(step.arg(index)).unwrap_or(u16::MAX))?;
    }
    Ok(objects)
}

impl<'w, 't> Gathering<'w, 't> {
    fn new(world: &'w World<'t>, objects: Vec<u16>) -> Self {
        let alloc = world.alloc();
        let seed = world.task().initial_atoms().seed();
        Gathering {
            world,
            objects,
            bound: Vec::new(alloc),
            guards: Vec::new(alloc),
            deleted: IndexMap::with_hasher(alloc, seed),
            added: IndexMap::with_hasher(alloc, seed),
        }
    }

    /// Gathers what an action does.
    fn take_action(&mut self, action: &'t Action) -> Result<(), AllocError> {
        self.note_all(false, action.del.as_slice())?;
        self.note_all(true, action.add.as_slice())?;
        gather_all(self, action.effects.as_slice())
    }

    /// Notes atoms that become true or false in any case.
    fn note_all(&mut self, positive: bool, patterns: &[Pattern]) -> Result<(), AllocError> {
        for pattern in patterns {
            self.note(positive, pattern)?;
        }
        Ok(())
    }

    /// Notes an atom that becomes true or false, unless it was noted before.
    fn note(&mut self, positive: bool, pattern: &Pattern) -> Result<(), AllocError> {
        let alloc = self.world.alloc();
        let atom = atom_of(
            alloc,
            pattern,
            self.objects.as_slice(),
            self.bound.as_slice(),
        )?;
        let firing = self.firing()?;
        if positive {
            keep_first(&mut self.added, atom, firing)
        } else {
            keep_first(&mut self.deleted, atom, firing)
        }
    }

    /// How the effect at hand happens.
    fn firing(&self) -> Result<Firing<'t>, AllocError> {
        let alloc = self.world.alloc();
        let is_plain = self.guards.is_empty();
        let objects: &[u16] = if is_plain {
            &[]
        } else {
            self.objects.as_slice()
        };
        let bound: &[u16] = if is_plain { &[] } else { self.bound.as_slice() };
        Ok(Firing {
            guards: Vec::from_slice(alloc, self.guards.as_slice())?,
            objects: Vec::from_slice(alloc, objects)?,
            bound: Vec::from_slice(alloc, bound)?,
        })
    }

    /// What changes by the effects that were gathered.
    fn finish(self) -> Result<StepChanges<'t>, AllocError> {
        let Self {
            world,
            objects: _,
            bound: _,
            guards: _,
            deleted,
            added,
        } = self;
        let mut changes = StepChanges {
            deleted: Vec::new(world.alloc()),
            added: Vec::new(world.alloc()),
        };
        for (atom, firing) in deleted {
            if world.holds(&atom) && !added.contains_key(&atom) {
                changes.deleted.push(Change { atom, firing })?;
            }
        }
        changes.added = new_atoms(world, added)?;
        Ok(changes)
    }
}

/// Notes how an atom is changed, unless it was noted before.
fn keep_first<'t>(
    noted: &mut IndexMap<Atom, Firing<'t>, Seed>,
    atom: Atom,
    firing: Firing<'t>,
) -> Result<(), AllocError> {
    if !noted.contains_key(&atom) {
        noted.insert(atom, firing)?;
    }
    Ok(())
}

/// Those of some atoms that are not true yet.
fn new_atoms<'t>(
    world: &World<'t>,
    added: IndexMap<Atom, Firing<'t>, Seed>,
) -> Result<Vec<Change<'t>>, AllocError> {
    let mut changes = Vec::new(world.alloc());
    for (atom, firing) in added {
        if !world.holds(&atom) {
            changes.push(Change { atom, firing })?;
        }
    }
    Ok(changes)
}

/// Gathers the effects of a list.
#[cycle(gathering)]
fn gather_all<'t>(
    gathering: &mut Gathering<'_, 't>,
    effects: &'t [Effect],
) -> Result<(), AllocError> {
    for effect in effects {
        gather(gathering, effect)?;
    }
    Ok(())
}

/// Gathers an effect, if it happens.
#[cycle(gathering)]
fn gather<'t>(gathering: &mut Gathering<'_, 't>, effect: &'t Effect) -> Result<(), AllocError> {
    match effect.node() {
        EffectNode::Atom(positive, pattern) => gathering.note(*positive, pattern),
        EffectNode::And(effects) => gather_all(gathering, effects),
        EffectNode::When(condition, body) => gather_guarded(gathering, condition, body),
        EffectNode::ForAll(groups, body) => gather_each(gathering, groups.as_slice(), body),
    }
}

/// Gathers an effect, if its condition holds.
#[cycle(gathering)]
fn gather_guarded<'t>(
    gathering: &mut Gathering<'_, 't>,
    condition: &'t Formula,
    body: &'t Effect,
) -> Result<(), AllocError> {
    let world = gathering.world;
    if !holds(
        world,
        condition,
        gathering.objects.as_slice(),
        &mut gathering.bound,
    )? {
        return Ok(());
    }
    let outside = gathering.guards.len();
    gathering.guards.push(Guard {
        condition,
        depth: gathering.bound.len(),
    })?;
    gather(gathering, body)?;
    gathering.guards.truncate(outside);
    Ok(())
}

/// Gathers an effect for every choice of objects for its variables.
#[cycle(gathering)]
fn gather_each<'t>(
    gathering: &mut Gathering<'_, 't>,
    groups: &[VariableGroup],
    body: &'t Effect,
) -> Result<(), AllocError> {
    let world = gathering.world;
    let choices = Choices::new(world.alloc(), world.task(), groups)?;
    let outside = gathering.bound.len();
    for number in 0..choices.count() {
        choices.bind(number, &mut gathering.bound)?;
        gather(gathering, body)?;
        gathering.bound.truncate(outside);
    }
    Ok(())
}
