//! What effects, and initial atoms and values, may name: what atoms may, and functions.

ghost use Rattle.std.specs.Prelude.{◌≡◌, ◌≤◌, length};
ghost use Rattle.strips_task.specs.WellFormed.{most_objects, most_predicates};
ghost use Rattle.pddl_reader.specs.Functions.{vocabulary};
ghost use Rattle.pddl_reader.specs.Resolved.{vocabulary_form};

use crate::resolution::tables::Declared;
use strips_task::{Alternatives, NameTable, Seq, TypeList};

/// What effects, and initial atoms and values, may name.
#[derive(Clone, Copy)]
pub(crate) struct Vocabulary<'d> {
    pub(crate) atoms: Declared<'d>,
    /// The functions in place of the predicates: they are looked up in the same way.
    pub(crate) functions: Declared<'d>,
}

impl<'d> Vocabulary<'d> {
    /// The vocabulary of these tables.
    pub(crate) fn new(
        parents: &'d TypeList,
        objects: &'d NameTable<u16>,
        predicates: &'d NameTable<Seq<Alternatives>>,
        functions: &'d NameTable<Seq<Alternatives>>,
    ) -> Self
        requires few_objects { length objects.now ≤ most_objects }
        requires few_predicates { length predicates.now ≤ most_predicates }
        requires few_functions { length functions.now ≤ most_predicates }
        ensures { vocabulary_form result ≡ vocabulary parents.now objects.now predicates.now functions.now }
    {
        Vocabulary {
            atoms: Declared::new(parents, objects, predicates),
            functions: Declared::new(parents, objects, functions),
        }
    }
}
