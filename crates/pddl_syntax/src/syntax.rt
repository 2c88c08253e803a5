//! The second layer: what the grammar allows, kept as slices of the text with their spans. Initial atoms and the variables of declarations are not kept,
//! but only where they begin.
//!
//! Each reader here starts inside a list, reads what is left of it, and leaves it after its `)`. Lists are nested at most 64 deep, since the first
//! layer refuses deeper ones, and the recursion goes as deep.

pub(crate) mod action;
pub(crate) mod atoms;
pub(crate) mod costs;
pub(crate) mod domain;
pub(crate) mod effect;
pub(crate) mod formula;
pub(crate) mod initial;
pub(crate) mod lists;
pub(crate) mod problem;
pub(crate) mod refusals;
pub(crate) mod trees;
pub(crate) mod typed;
pub(crate) mod variables;

use crate::syntax::initial::InitialItems;
use crate::syntax::trees::{EffectSyntax, FormulaSyntax};
use crate::syntax::variables::VariableList;
use crate::walk::{NameWord, Word};
use pddl_tokens::Span;
use smallvec::SmallVec;

/// The words of an atom's terms. Most atoms have at most two, which take no memory of their own.
pub type Terms<'a> = SmallVec<Word<'a>, 2>;

/// The variables of a group. Many groups have one, which takes no memory of its own.
pub type Variables<'a> = SmallVec<Word<'a>, 1>;

/// Several names: those of a group, or types. Most often there is one, which takes no memory of its own.
pub type Names<'a> = SmallVec<NameWord<'a>, 1>;

/// An atom as written. A function with its terms is kept the same way, with the name of the function as that of the predicate.
pub struct AtomSyntax<'a> {
    pub predicate: NameWord<'a>,
    pub terms: Terms<'a>,
}

impl Drop for AtomSyntax<'_> {
    fn drop(self) {
        let Self {
            predicate: _,
            terms: _,
        } = self;
    }
}

/// The two terms of an equality.
#[derive(Drop)]
pub struct EqualitySyntax<'a> {
    pub left: Word<'a>,
    pub right: Word<'a>,
}

/// What `total-cost` is raised by.
#[derive(Drop)]
pub enum AmountSyntax<'a> {
    /// A number, in billionths.
    Number(u64),
    /// The value of a function.
    Function(AtomSyntax<'a>),
}

/// An increase of `total-cost`.
pub struct IncreaseSyntax<'a> {
    /// Where the word `increase` is.
    pub span: Span,
    /// The word `total-cost`.
    pub target: Word<'a>,
    pub amount: AmountSyntax<'a>,
}

impl Drop for IncreaseSyntax<'_> {
    fn drop(self) {
        let Self {
            span: _,
            target: _,
            amount: _,
        } = self;
    }
}

/// The value of a function.
pub struct ValueSyntax<'a> {
    pub function: AtomSyntax<'a>,
    /// The value, in billionths.
    pub value: u64,
    /// Where the value is.
    pub span: Span,
}

impl Drop for ValueSyntax<'_> {
    fn drop(self) {
        let Self {
            function: _,
            value: _,
            span: _,
        } = self;
    }
}

/// An initial atom, or the value of a function.
#[derive(Drop)]
pub enum InitialSyntax<'a> {
    /// An atom, or the negation of one.
    Atom {
        positive: bool,
        atom: AtomSyntax<'a>,
    },
    /// The value of a function. [`Dialect::Strips`](crate::Dialect::Strips) has none.
    Value(ValueSyntax<'a>),
}

/// A group of a list of typed variables, with the names of the types that they may have.
pub struct VariableGroup<'a> {
    pub variables: Variables<'a>,
    pub kinds: Names<'a>,
}

impl Drop for VariableGroup<'_> {
    fn drop(self) {
        let Self {
            variables: _,
            kinds: _,
        } = self;
    }
}

/// The declaration of a predicate or a function.
pub struct PredicateSyntax<'a> {
    pub name: NameWord<'a>,
    pub variables: VariableList<'a>,
}

impl Drop for PredicateSyntax<'_> {
    fn drop(self) {
        let Self {
            name: _,
            variables: _,
        } = self;
    }
}

/// The parts of an action that are given.
pub struct ActionParts<'a> {
    pub parameters: Option<VariableList<'a>>,
    pub precondition: Option<FormulaSyntax<'a>>,
    pub effect: Option<EffectSyntax<'a>>,
}

impl Drop for ActionParts<'_> {
    fn drop(self) {
        let Self {
            parameters: _,
            precondition: _,
            effect: _,
        } = self;
    }
}

/// An action with its name.
pub struct ActionSyntax<'a> {
    pub name: NameWord<'a>,
    pub parts: ActionParts<'a>,
}

impl Drop for ActionSyntax<'_> {
    fn drop(self) {
        let Self { name: _, parts: _ } = self;
    }
}

/// A group of a list of typed names, with the name of their type.
pub struct NameGroup<'a> {
    pub names: Names<'a>,
    pub kind: NameWord<'a>,
}

impl Drop for NameGroup<'_> {
    fn drop(self) {
        let Self { names: _, kind: _ } = self;
    }
}

/// The sections of a domain that are given.
pub struct DomainSections<'a> {
    pub requirements: bool,
    pub types: Option<Vec<NameGroup<'a>>>,
    pub constants: Option<Vec<NameGroup<'a>>>,
    pub predicates: Option<Vec<PredicateSyntax<'a>>>,
    pub functions: Option<Vec<PredicateSyntax<'a>>>,
    pub actions: Vec<ActionSyntax<'a>>,
}

impl Drop for DomainSections<'_> {
    fn drop(self) {
        let Self {
            requirements: _,
            types: _,
            constants: _,
            predicates: _,
            functions: _,
            actions: _,
        } = self;
    }
}

/// A domain with its name.
pub struct DomainSyntax<'a> {
    pub name: NameWord<'a>,
    pub sections: DomainSections<'a>,
}

impl Drop for DomainSyntax<'_> {
    fn drop(self) {
        let Self {
            name: _,
            sections: _,
        } = self;
    }
}

/// The sections of a problem that are given.
#[derive(Drop)]
pub struct ProblemSections<'a> {
    pub domain: Option<NameWord<'a>>,
    pub requirements: bool,
    pub objects: Option<Vec<NameGroup<'a>>>,
    pub init: Option<InitialItems<'a>>,
    pub goal: Option<FormulaSyntax<'a>>,
    pub metric: bool,
    pub length: bool,
}

/// A problem with its name, and the name that it gives for its domain.
pub struct ProblemSyntax<'a> {
    pub name: NameWord<'a>,
    pub domain: NameWord<'a>,
    pub objects: Option<Vec<NameGroup<'a>>>,
    pub init: Option<InitialItems<'a>>,
    pub goal: FormulaSyntax<'a>,
}

impl Drop for ProblemSyntax<'_> {
    fn drop(self) {
        let Self {
            name: _,
            domain: _,
            objects: _,
            init: _,
            goal: _,
        } = self;
    }
}
