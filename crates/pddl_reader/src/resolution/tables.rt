//! The tables in which the names of atoms are looked up.

ghost use Rattle.std.specs.Prelude.{◌≡◌, ◌≤◌, length};
ghost use Rattle.strips_task.specs.WellFormed.{most_objects, most_predicates, most_types};

use std::alloc::Global;
use strips_task::{Alternatives, NameTable, Seq, TypeList};

/// What atoms may name: types with their order, objects and predicates.
#[derive(Clone, Copy)]
pub(crate) struct Declared<'d> {
    pub(crate) parents: &'d TypeList,
    pub(crate) objects: &'d NameTable<u16>,
    pub(crate) predicates: &'d NameTable<Seq<Alternatives>>,
    ghost few_objects: { length objects.now ≤ most_objects },
    ghost few_predicates: { length predicates.now ≤ most_predicates },
}

impl<'d> Declared<'d> {
    /// What is declared by these tables.
    pub(crate) fn new(
        parents: &'d TypeList,
        objects: &'d NameTable<u16>,
        predicates: &'d NameTable<Seq<Alternatives>>,
    ) -> Self
        requires few_objects { length objects.now ≤ most_objects }
        requires few_predicates { length predicates.now ≤ most_predicates }
        ensures parents { result.parents.now ≡ parents.now }
        ensures objects { result.objects.now ≡ objects.now }
        ensures predicates { result.predicates.now ≡ predicates.now }
    {
        Declared {
            parents,
            objects,
            predicates,
        }
    }
}

/// What conditions and effects may name, and the memory of what they stand for.
#[derive(Clone, Copy)]
pub(crate) struct Context<'d> {
    pub(crate) alloc: Global,
    pub(crate) types: &'d NameTable<()>,
    pub(crate) known: Declared<'d>,
    ghost few_types: { length types.now ≤ most_types },
}
