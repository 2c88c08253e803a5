//! Formulas and effects of PDDL as trees: what preconditions and goals are made of, and what actions do. Also what formulas themselves are made of: names
//! ([`Name`]), terms, ground atoms ([`Atom`]), and lists that contracts see as lists ([`Seq`], [`ShortSeq`]).
//!
//! ```text
//! let formula = Formula::new(Node::And(parts));                    // a formula of its parts
//! match formula.node() { Node::Not(body) => .., .. }               // its parts again
//! let asked = ground(alloc, &formula, objects, bound)?;            // with objects for the parameters of the action
//! let same = asked == other;                                       // compares part by part
//! ```
//!
//! A [`Formula`] is a literal, which is an atom or an equality with a sign, or it is made of other formulas with `not`, `and`, `or`, `imply`, `exists` and
//! `forall`. Contracts see it as a tree. `specs/Tree.antt` defines these trees, `specs/Meaning.antt` when one holds in a state, and the functions of
//! [`laws`] say what follows from that.
#![tactic(auto)]

mod atoms;
mod effect;
mod equality;
mod formula;
mod grounding;
mod hashing;
pub mod laws;
mod names;
mod seq;
mod short;
mod terms;
mod variables;

pub use atoms::{Atom, AtomList};
pub use effect::{Effect, EffectNode};
pub use formula::{Formula, Node};
pub use grounding::ground;
pub use names::{Name, NameKey};
pub use seq::Seq;
pub use short::ShortSeq;
pub use terms::{Pattern, Term, variable_term};
pub use variables::{Alternatives, VariableGroup};
