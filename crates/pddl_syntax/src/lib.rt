//! The grammar of PDDL domains and problems (PDDL 2.1, Fox and Long 2003, appendix A): reads the syntax of a text, as slices of the text with
//! their spans. `pddl_reader` finds out what the names in it stand for.
//!
//! ```text
//! check_text(text)?;                                    // bad bytes and wrong parentheses, in one pass that takes no memory
//! let domain = domain_text(alloc, dialect, text)?;      // a DomainSyntax, or the first fault of the grammar
//! let problem = problem_text(alloc, dialect, text, &mut Passed)?;    // a ProblemSyntax
//! ```
//!
//! Call [`check_text`] first: the two readers take only texts that it accepts. They work by recursive descent, at most as deep as it lets lists
//! be nested. They read one of three languages, a [`Dialect`]. A refusal is a [`ReadFault`]: its kind and the span of the faulty bytes.
#![tactic(auto)]

mod dialect;
mod fault;
mod heads;
pub mod laws;
mod marks;
mod syntax;
mod text;
mod walk;

pub use dialect::Dialect;
pub use fault::{FaultKind, ReadFault};
pub use heads::is_variable;
pub use syntax::domain::domain_text;
pub use syntax::initial::{InitialItems, InitialTaker, Passed};
pub use syntax::problem::problem_text;
pub use syntax::trees::{EffectNode, EffectSyntax, FormulaNode, FormulaSyntax};
pub use syntax::variables::VariableList;
pub use syntax::{
    ActionParts, ActionSyntax, AmountSyntax, AtomSyntax, DomainSections, DomainSyntax,
    EqualitySyntax, IncreaseSyntax, InitialSyntax, NameGroup, Names, PredicateSyntax,
    ProblemSections, ProblemSyntax, Terms, ValueSyntax, VariableGroup, Variables,
};
pub use text::check_text;
pub use walk::{NameWord, Word};
