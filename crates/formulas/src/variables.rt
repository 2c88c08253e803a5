//! The variables of quantifiers.

use crate::{Name, Seq};

/// The types that an argument may have: those in `(either ..)`, or a single one.
pub type Alternatives = Seq<u16>;

/// Variables of a quantifier that share their types, such as `?x ?y - block` or `?z - (either a b)`. A quantifier keeps its groups as they were written,
/// because conditions are printed.
pub struct VariableGroup {
    /// The names of the variables in order, without their question marks.
    pub names: Seq<Name>,
    /// The numbers of their types. Each variable stands for an object of one of these.
    pub types: Alternatives,
}

impl Drop for VariableGroup {
    fn drop(self) {
        let Self { names: _, types: _ } = self;
    }
}
