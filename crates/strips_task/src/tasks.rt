//! A planning task: what a domain and a problem say together (PDDL 2.1, Fox and Long 2003, level 1).
//!
//! A reader fills [`TaskParts`] and makes a [`Task`] of them. The type [`Task`] ensures that they are well formed, and judges only read it.
ghost use Rattle.std.specs.Prelude.{◌≡◌, ◌<◌, ◌^◌, ◌↔◌, All, IsTrue, true, length, slice_get, IfSome, Some};
ghost use Rattle.formulas.specs.Within.{IsWithin};
ghost use Rattle.pddl_words.specs.Words.{is_name, folded};
ghost use Rattle.strips_task.specs.Names.{number_named};
ghost use Rattle.strips_task.specs.Types.{IsBelow, is_below};
ghost use Rattle.strips_task.specs.WellFormed.{IsWellFormed};
ghost use Rattle.strips_task.specs.Within.{IsActionWithin};
ghost use Rattle.std.specs.Map.{keys_of, values_of};

use crate::{Action, Alternatives, Formula, InitialAtoms, Name, NameTable, Seq, TypeList};
use std::marker::Model;

/// The parts of a task. Names are distinct in each table; numbers are indexes in the tables.
pub struct TaskParts {
    /// The name of the domain.
    pub domain: Name,
    /// The name of the problem.
    pub problem: Name,
    /// For each type its name; number 0 is `object`.
    pub types: NameTable<()>,
    /// For each type the number of its parent.
    pub parents: TypeList,
    /// For each object, constants first, its name and the number of its type.
    pub objects: NameTable<u16>,
    /// For each predicate its name and, for each argument, the types that it may have.
    pub preds: NameTable<Seq<Alternatives>>,
    /// For each action its name and what it asks and does.
    pub actions: NameTable<Action>,
    /// The atoms that are true at the start.
    pub init: InitialAtoms,
    /// What must hold at the end: all of these, which name no parameter.
    pub goal: Seq<Formula>,
}

impl Drop for TaskParts {
    fn drop(self) {
        let Self {
            domain: _,
            problem: _,
            types: _,
            parents: _,
            objects: _,
            preds: _,
            actions: _,
            init: _,
            goal: _,
        } = self;
    }
}

/// A well-formed task. Contracts see the record of its parts.
#[derive(Drop)]
pub struct Task {
    parts: TaskParts,
}

impl Model for Task {
    ghost use Rattle.strips_task.specs.declared.tasks.TaskParts.{TaskParts};
    ghost use Rattle.strips_task.specs.WellFormed.{IsWellFormed};

    ghost Value = { TaskParts };

    ghost use Rattle.formulas.specs.contracts.effect.Effect as effect;
    ghost use Rattle.formulas.specs.contracts.formula.Formula as formula;
    ghost use Rattle.std.specs.Coded.{codes};

    ghost coded = { Prim.hlevel (codes, formula.the_row.coded, effect.the_row.coded) };

    ghost view = { λ t. t.parts };

    ghost invariant = { λ t. IsWellFormed t.parts };
}

impl Task {
    /// The task of well-formed parts. It never fails, takes no memory and copies nothing.
    pub fn make(parts: TaskParts) -> Task
        requires { IsWellFormed parts }
        ensures { result ≡ parts }
    {
        Task { parts }
    }

    /// The name of the domain.
    pub fn domain_name(&self) -> &Name
        ensures { result.now ≡ self.now.domain }
    {
        &self.parts.domain
    }

    /// The name of the problem.
    pub fn problem_name(&self) -> &Name
        ensures { result.now ≡ self.now.problem }
    {
        &self.parts.problem
    }

    /// The initial atoms, numbered.
    pub fn initial_atoms(&self) -> &InitialAtoms
        ensures { result.now ≡ self.now.init }
    {
        &self.parts.init
    }

    /// What must hold at the end.
    pub fn goal(&self) -> &Seq<Formula>
        ensures goal { result.now ≡ self.now.goal }
        ensures within { All (IsWithin 0 0) result.now }
    {
        &self.parts.goal
    }

    /// How many objects the task has.
    pub fn object_count(&self) -> usize
        ensures count { result ≡ length self.now.objects }
        ensures few { result < 2 ^ 16 }
    {
        self.parts.objects.len()
    }

    /// How many actions the task has.
    pub fn action_count(&self) -> usize
        ensures count { result ≡ length self.now.actions }
        ensures few { result < 2 ^ 16 }
    {
        self.parts.actions.len()
    }

    /// How many predicates the task has.
    pub fn pred_count(&self) -> usize
        ensures { result ≡ length self.now.preds }
    {
        self.parts.preds.len()
    }

    /// How many types the task has, `object` among them.
    pub fn type_count(&self) -> usize
        ensures { result ≡ length self.now.types }
    {
        self.parts.types.len()
    }

    /// The name of the type with a number.
    pub fn type_name(&self, number: u16) -> &Name
        requires { number < length self.now.types }
        ensures { slice_get (keys_of self.now.types) number ≡ Some result.now }
    {
        self.parts.types.get(usize::from(number)).0
    }

    /// The name of the object with a number.
    pub fn object_name(&self, number: u16) -> &Name
        requires { number < length self.now.objects }
        ensures { slice_get (keys_of self.now.objects) number ≡ Some result.now }
    {
        self.parts.objects.get(usize::from(number)).0
    }

    /// The number of the type of the object with a number.
    #[inline(always)]
    pub fn object_type(&self, number: u16) -> u16
        requires { number < length self.now.objects }
        ensures type_number { slice_get (values_of self.now.objects) number ≡ Some result }
        ensures known { result < length self.now.parents }
    {
        *self.parts.objects.get(usize::from(number)).1
    }

    /// The name of the predicate with a number.
    pub fn pred_name(&self, number: u16) -> &Name
        requires { number < length self.now.preds }
        ensures { slice_get (keys_of self.now.preds) number ≡ Some result.now }
    {
        self.parts.preds.get(usize::from(number)).0
    }

    /// The action with a number.
    #[inline(always)]
    pub fn action(&self, number: u16) -> &Action
        requires { number < length self.now.actions }
        ensures action { slice_get (values_of self.now.actions) number ≡ Some result.now }
        ensures within { IsActionWithin (length self.now.parents) result.now }
    {
        self.parts.actions.get(usize::from(number)).1
    }

    /// The number of the action with a name, by the bytes as they are: a word that is not in lower case has none. Takes two
    /// reads of memory for most names of at most 16 bytes ([`NameTable::number_of`]).
    #[inline]
    pub fn action_named(&self, word: &[u8]) -> Option<u16>
        ensures number { result ≡ number_named self.now.actions word.now }
        ensures within { IfSome result (λ number. number < length self.now.actions) }
    {
        match self.parts.actions.number_of(word) {
            Some(number) => Some(number as u16),
            None => None,
        }
    }

    /// The number of the action with a name, as by `action_named`. The word is the name itself, in lower case.
    #[inline(always)]
    pub fn action_spelled(&self, word: &[u8]) -> Option<u16>
        ensures spelled { IfSome result (λ number. (is_name word.now ≡ true) × (number_named self.now.actions (folded word.now) ≡ Some number)) }
        ensures within { IfSome result (λ number. number < length self.now.actions) }
    {
        let number = self.parts.actions.number_of(word)?;
        Some(number as u16)
    }

    /// The number of the object with a name, by the bytes as they are: a word that is not in lower case has none. Takes two
    /// reads of memory for most names of at most 16 bytes ([`NameTable::number_of`]).
    #[inline]
    pub fn object_named(&self, word: &[u8]) -> Option<u16>
        ensures number { result ≡ number_named self.now.objects word.now }
        ensures within { IfSome result (λ number. number < length self.now.objects) }
    {
        match self.parts.objects.number_of(word) {
            Some(number) => Some(number as u16),
            None => None,
        }
    }

    /// The number of the object with a name, as by `object_named`. The word is the name itself, in lower case.
    #[inline(always)]
    pub fn object_spelled(&self, word: &[u8]) -> Option<u16>
        ensures spelled { IfSome result (λ number. (is_name word.now ≡ true) × (number_named self.now.objects (folded word.now) ≡ Some number)) }
        ensures within { IfSome result (λ number. number < length self.now.objects) }
    {
        let number = self.parts.objects.number_of(word)?;
        Some(number as u16)
    }

    /// Whether the first type is below the second: they are the same, or the second is the parent of the first, or its parent's parent, and so on
    /// (PDDL 2.1, Fox and Long 2003, section 2). Takes one read of a table.
    #[inline(always)]
    pub fn is_subtype(&self, sub: u16, sup: u16) -> bool
        requires { sub < length self.now.parents }
        ensures test { result ≡ is_below self.now.parents sub sup }
        ensures order { IsTrue result ↔ IsBelow self.now.parents sub sup }
    {
        self.parts.parents.is_below(sub, sup)
    }
}
