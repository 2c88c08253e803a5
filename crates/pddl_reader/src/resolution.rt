//! The third layer: names are looked up, and the domain and the task are made.
//!
//! Tables are filled in text order, so that a name's number is its index among those declared. Most look-ups are one or two reads of memory. Initial
//! atoms, which are the most numerous, are looked up in rows, as they are written.

pub(crate) mod actions;
pub(crate) mod atoms;
pub(crate) mod conditions;
pub(crate) mod domain;
pub(crate) mod effects;
pub(crate) mod functions;
pub(crate) mod initial;
pub(crate) mod names;
pub(crate) mod objects;
pub(crate) mod parts;
pub(crate) mod problem;
pub(crate) mod quantifiers;
pub(crate) mod rows;
pub(crate) mod scope;
pub(crate) mod tables;
pub(crate) mod terms;
pub(crate) mod types;
pub(crate) mod variables;
pub(crate) mod vocabulary;
