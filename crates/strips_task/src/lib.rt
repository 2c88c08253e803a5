//! Planning tasks and plans, as the readers of texts make them and the judge takes them.
//!
//! ```text
//! let task = Task::make(parts);                     // parts: a well-formed TaskParts
//! task.action_named(b"stack")                       // Some(number), or None if no action has this name
//! let mut steps = OpenSteps::new(alloc);
//! steps.push_word(b"Stack")?;                       // the words of a step one by one, kept in lower case
//! steps.push_word(b"b")?;
//! steps.close_step()?;
//! let plan = Plan::Steps(steps.finish());           // the plan whose only step is (stack b)
//! ```
//!
//! A reader fills a [`TaskParts`]: tables of named things ([`NameTable`]), the order of types ([`TypeList`]), actions, initial atoms
//! ([`InitialAtoms`]) and the goal. [`Task::make`] turns well-formed parts into a [`Task`]. Every [`Task`] is well formed, by its type, so no
//! function that takes one has to test it again. A [`Plan`] holds its steps as text in lower case ([`StepList`]). The names in it are looked up
//! when it is judged, since a plan may use names that the task doesn't have.
//!
//! A task may count costs: a [`CostedTask`] is a [`Task`] and its [`Costs`], the amounts by which each action increases the total cost
//! ([`Increases`]) and the values that the problem gives to functions ([`FunctionValues`]).
#![tactic(auto)]

mod actions;
mod amounts;
mod atom_keys;
mod atom_table;
mod costs;
mod equality;
mod initial;
mod known_atoms;
pub mod laws;
mod plans;
mod seed;
mod short_names;
mod step_view;
mod steps;
mod table;
mod tasks;
mod types;
mod values;
mod well_formed;
mod words;

pub use actions::Action;
pub use amounts::{Amount, Increases, MOST_INCREASES};
pub use atom_keys::AtomKey;
pub use atom_table::{AtomTable, KeptAtom};
pub use costs::{CostedTask, Costs};
pub use formulas::{
    Alternatives, Atom, AtomList, Effect, EffectNode, Formula, Name, NameKey, Node, Pattern, Seq,
    ShortSeq, Term, VariableGroup,
};
pub use initial::InitialAtoms;
pub use plans::Plan;
pub use seed::Seed;
pub use step_view::StepView;
pub use steps::{MOST_STEPS, OpenSteps, StepList, StepRange, StepText};
pub use table::NameTable;
pub use tasks::{Task, TaskParts};
pub use types::TypeList;
pub use values::{FunctionValues, Given};
pub use well_formed::{
    MOST_ACTIONS, MOST_ALTERNATIVES, MOST_OBJECTS, MOST_PREDICATES, MOST_TYPES, MOST_VARIABLES,
    object_fits, term_fits,
};
pub use words::WordList;
