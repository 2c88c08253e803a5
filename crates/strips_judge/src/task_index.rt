//! A task with what a judge looks up in it again and again.
//!
//! A predicate is static if no action changes its atoms. A condition on such an atom is decided once, when a step is learned, and need not be tested at
//! each step. The objects of a type, of which a quantifier chooses, are listed once.
ghost use Rattle.std.specs.Prelude.{◌≡◌, ◌<◌, false, filter, ℕ, IsTrue, IfOk, IfSome, All, length, nat_eq};
ghost use Rattle.std.specs.List.{list_all};
ghost use Rattle.formulas.specs.Meaning.{atom_of};
ghost use Rattle.formulas.specs.Within.{IsPatternWithin};
ghost use Rattle.strips_judge.specs.Fitting.{object_fits};
ghost use Rattle.strips_judge.specs.Listing.{candidates_of};
ghost use Rattle.strips_judge.specs.State.{State, objects_of};
ghost use Rattle.strips_judge.specs.Statics.{IsUnmarked, KeepsStatics, action_spares, is_of_another, is_static, spares};

use crate::arguments::object_fits;
use crate::candidates::{Candidates, list_objects};
use crate::grounding::ground;
use std::alloc::{AllocError, Global};
use std::marker::Model;
use strips_task::{Action, Atom, Effect, EffectNode, Pattern, Seq, Task};

/// A task with a table of its static predicates and lists of the objects of its types. Contracts see the parts of the task.
pub struct TaskIndex<'t> {
    task: &'t Task,
    /// For each predicate by number whether some action may change its atoms.
    changed: Vec<bool>,
    /// For the first types by number the objects that a variable of the type may stand for.
    lists: Vec<Seq<u16>>,
}

impl Drop for TaskIndex<'_> {
    fn drop(self) {
        let Self {
            task: _,
            changed: _,
            lists: _,
        } = self;
    }
}

impl<'t> Model for TaskIndex<'t> {
    ghost use Rattle.std.specs.Prelude.{◌≡◌, ◌∷◌, [], ℕ, List, IsTrue, Some, slice_get};
    ghost use Rattle.strips_judge.specs.Listing.{AreLists};
    ghost use Rattle.strips_task.specs.declared.tasks.TaskParts.{TaskParts};
    ghost use Rattle.strips_judge.specs.Statics.{IsUnmarked, is_static};

    ghost Value = { TaskParts };

    ghost use Rattle.formulas.specs.contracts.effect.Effect as effect;
    ghost use Rattle.formulas.specs.contracts.formula.Formula as formula;
    ghost use Rattle.std.specs.Coded.{codes};

    ghost coded = { Prim.hlevel (codes, formula.the_row.coded, effect.the_row.coded) };

    ghost view = { λ index. index.task.now };

    ghost invariant = { λ index. ((pred : ℕ) → IsUnmarked index.changed.items pred → IsTrue (is_static index.task.now pred))
        × AreLists index.task.now index.lists.items };
}

impl<'t> TaskIndex<'t> {
    /// The index of a task. Takes one pass over its actions and a byte for each predicate; and if some formula is more than a literal, or some effect more
    /// than an atom, a pass over the objects for each type that gets a list.
    pub fn new(alloc: Global, task: &'t Task) -> Result<TaskIndex<'t>, AllocError>
        ensures { IfOk result (λ index. index ≡ task.now) }
    {
        let mut changed = Vec::new(alloc);
        changed.resize(task.pred_count(), false)?;
        for number in 0..task.action_count() {
            mark_action(task.action(number as u16), &mut changed);
        }
        let lists = list_objects(alloc, task)?;
        Ok(TaskIndex {
            task,
            changed,
            lists,
        })
    }

    /// The task.
    #[inline(always)]
    pub fn task(&self) -> &'t Task
        ensures { result.now ≡ self.now }
    {
        self.task
    }

    /// Where the objects are to be found that a variable of these types may stand for.
    pub fn candidates(&self, types: &[u16]) -> Candidates<'_>
        ensures all { filter (object_fits self.now types.now) (candidates_of result) ≡ objects_of self.now types.now }
        ensures known { All (λ object. object < length self.now.objects) (candidates_of result) }
    {
        if let [only] = types {
            if let Some(list) = self.lists.get(usize::from(*only)) {
                return Candidates::Listed(list.as_slice());
            }
        }
        Candidates::Every(self.task.object_count() as u16)
    }

    /// Whether an object is of one of these types, or of one below them.
    #[inline(always)]
    pub fn object_fits(&self, types: &[u16], object: u16) -> bool
        requires { object < length self.now.objects }
        ensures { result ≡ object_fits self.now types.now object }
    {
        object_fits(self.task, types, object)
    }

    /// Whether a predicate is known to be static.
    #[inline(always)]
    fn is_static(&self, pred: u16) -> bool
        ensures { IsTrue result → IsTrue (is_static self.now pred) }
    {
        match self.changed.get(usize::from(pred)) {
            Some(mark) => !*mark,
            None => false,
        }
    }

    /// Whether the atom that a pattern stands for is true in every state of the task, or in none, if its predicate is static. Takes one hash.
    #[inline(always)]
    pub fn lasting_truth(
        &self,
        pattern: &Pattern,
        objects: &[u16],
        bound: &[u16],
        atom: &mut Atom,
    ) -> Result<Option<bool>, AllocError>
        requires { IsPatternWithin (length objects.now) (length bound.now) pattern.now }
        ensures { IfOk result (λ truth. IfSome truth (λ truth. (state : State) → KeepsStatics self.now state
            → state (atom_of objects.now bound.now pattern.now) ≡ truth)) }
    {
        if !self.is_static(pattern.pred) {
            return Ok(None);
        }
        ground(pattern, objects, bound, atom)?;
        Ok(Some(self.task.initial_atoms().number_of(atom).is_some()))
    }
}

/// Marks the predicates of the atoms that an action may change.
fn mark_action(action: &Action, marks: &mut Vec<bool>)
    ensures { (pred : ℕ) → IsUnmarked marks.new.items pred → IsUnmarked marks.old.items pred × IsTrue (action_spares pred action.now) }
{
    mark_patterns(action.del.as_slice(), marks);
    mark_patterns(action.add.as_slice(), marks);
    mark_effects(action.effects.as_slice(), marks);
}

/// Marks the predicates of patterns.
fn mark_patterns(patterns: &[Pattern], marks: &mut Vec<bool>)
    ensures { (pred : ℕ) → IsUnmarked marks.new.items pred → IsUnmarked marks.old.items pred × IsTrue (list_all (is_of_another pred) patterns.now) }
{
    for pattern in patterns {
        mark(pattern.pred, marks);
    }
}

/// Marks the predicates of the atoms that effects may change.
#[cycle(mark_effect)]
fn mark_effects(effects: &[Effect], marks: &mut Vec<bool>)
    ensures { (pred : ℕ) → IsUnmarked marks.new.items pred → IsUnmarked marks.old.items pred × IsTrue (list_all (spares pred) effects.now) }
{
    for effect in effects {
        mark_effect(effect, marks);
    }
}

/// Marks the predicates of the atoms that an effect may change.
#[cycle(mark_effect)]
fn mark_effect(effect: &Effect, marks: &mut Vec<bool>)
    ensures { (pred : ℕ) → IsUnmarked marks.new.items pred → IsUnmarked marks.old.items pred × IsTrue (spares pred effect.now) }
{
    match effect.node() {
        EffectNode::Atom(_, pattern) => mark(pattern.pred, marks),
        EffectNode::And(parts) => mark_effects(parts, marks),
        EffectNode::When(_, body) => mark_effect(body, marks),
        EffectNode::ForAll(_, body) => mark_effect(body, marks),
    }
}

/// Marks a predicate.
fn mark(pred: u16, marks: &mut Vec<bool>)
    ensures { (other : ℕ) → IsUnmarked marks.new.items other → IsUnmarked marks.old.items other × (nat_eq other pred ≡ false) }
{
    let pred = usize::from(pred);
    if pred < marks.len() {
        marks[pred] = true;
    }
}
