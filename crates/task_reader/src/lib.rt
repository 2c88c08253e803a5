//! Reads a domain and a problem into a task, and refuses a task whose quantifiers have too many bindings.
//!
//! ```text
//! let seed = Seed::new(&RandomState::new(&rt)?);
//! match read_task(alloc, seed, Dialect::Adl, domain_text, problem_text) {
//!     Ok(task) => ..,                      // a CostedTask
//!     Err(TaskFault::Domain(fault)) => ..,  // why the domain is refused
//!     Err(TaskFault::Problem(fault)) => .., // why the problem is refused, with a domain that is read
//! }
//! ```
//!
//! [`pddl_reader`] reads the two texts. The limit of bindings is a stage after it, because only then all objects are known. `specs/Bindings.antt` says what is
//! counted. A task without quantifiers costs one walk over its conditions and effects.
#![tactic(auto)]

mod bindings;
mod excess;
mod objects;
mod readers;
mod spans;

pub use excess::{Excess, Whose, first_excess};
pub use readers::{TaskFault, read_task};
