//! What the definitions of the readers mean, in the words of PDDL: each law is the contract of a function that does nothing.
//!
//! ```text
//! pub fn types_form_a_tree_or_a_cycle()
//!     ensures { IsTreeOrCycle }
//! {}
//! ```
//!
//! The prover accepts this function only if `IsTreeOrCycle` holds. That is the law, and `specs/TypeCycles.antt` defines it: for every list of
//! parents, if `object` is its own parent and every parent is a type, the parents form a tree or have a cycle.
//!
//! The laws say that texts are read as they are written: by the trees that their tokens spell, by the groups of a typed list, and by types that
//! form a tree. They also say of each list of declarations, as a whole, when it is accepted and what it gives. No predicate, function or action
//! may be declared twice; a type or an object may be declared again in the same way.
//!
//! No program calls these functions. They are a crate of their own so that after a change of a law nothing else has to be proved again.
#![tactic(auto)]

ghost use Rattle.reading_laws.specs.DeclaredOnce.{AreObjectsDeclared, AreTypesDeclared};
ghost use Rattle.reading_laws.specs.DeclaredTables.{AreActionsDeclared, AreFunctionsDeclared, ArePredicatesDeclared};
ghost use Rattle.reading_laws.specs.TextTrees.{AreTreesSpelled};
ghost use Rattle.reading_laws.specs.TypeCycles.{IsTreeOrCycle};
ghost use Rattle.reading_laws.specs.TypedLists.{AreNamesTyped, AreVariablesTyped};

/// The trees that a text is read as, if it has no text fault, are those that its tokens spell.
pub fn trees_are_spelled()
    ensures { AreTreesSpelled }
{}

/// A list of typed names is a run of groups (names, then `-`, then the name of their type), and possibly names without a type at its end. It
/// is accepted exactly if it is written this way, and gives these groups; the names at its end are of type `object`.
pub fn typed_names_are_groups()
    ensures { AreNamesTyped }
{}

/// The same for a list of typed variables, in which a type may also be a choice `(either N+)`.
pub fn typed_variables_are_groups()
    ensures { AreVariablesTyped }
{}

/// If every parent is a type and `object` is its own parent, the types form a tree, or some other type is above itself. So if the test
/// for a tree fails although all parents are known, there really is a cycle.
pub fn types_form_a_tree_or_a_cycle()
    ensures { IsTreeOrCycle }
{}

/// A list of predicates is accepted exactly if the types of all variables are known, no name is declared twice and there are no more than the
/// limit. Its table has an entry for each declaration, in text order: the name in lower case, and the types of its variables.
pub fn predicates_are_declared()
    ensures { ArePredicatesDeclared }
{}

/// The same for a list of functions, in which `total-cost` must have no variables.
pub fn functions_are_declared()
    ensures { AreFunctionsDeclared }
{}

/// A list of actions is accepted exactly if each declaration is that of an action, no name is declared twice and there are no more than the limit.
/// Its tables have the name of each action in lower case, the action, and its increases, all in text order.
pub fn actions_are_declared()
    ensures { AreActionsDeclared }
{}

/// A list of objects that follows others is accepted exactly if the type of each group is known, no object has two types and there are no more than
/// the limit. It gives the others and then the objects that it declares, each once, where it is declared first, in lower case and with the number
/// of its type.
pub fn objects_are_declared()
    ensures { AreObjectsDeclared }
{}

/// A list of types is accepted exactly if there are no more than the limit, no type is declared under two parents (in the larger dialect
/// `object` counts as none), and the parents form a tree below `object`. It gives `object` and the types that it names, each once, where it is
/// named first and in lower case, and for each the number of its parent: the one that it is declared under, or else `object`.
pub fn types_are_declared()
    ensures { AreTypesDeclared }
{}
