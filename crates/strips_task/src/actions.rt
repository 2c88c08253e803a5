//! Actions: what they ask, and what they do.
//!
//! Inside an action an atom is a pattern: its terms are parameters of the action or objects, and inside a quantifier also the variables of the quantifier. A
//! step of a plan binds the parameters, and turns each pattern into a ground atom and each formula into one without parameters.

use formulas::{Alternatives, Effect, Formula, Pattern, Seq};

/// An action without its name (PDDL 2.1, Fox and Long 2003, level 1).
pub struct Action {
    /// For each parameter, the types that its object may have.
    pub params: Seq<Alternatives>,
    /// The precondition: all of these must hold.
    pub pre: Seq<Formula>,
    /// The atoms that are true afterwards in any case.
    pub add: Seq<Pattern>,
    /// The atoms that are false afterwards in any case, except those that are also added.
    pub del: Seq<Pattern>,
    /// What else it does: the effects under `when` and `forall`. Which atoms they add and delete depends on the state before.
    pub effects: Seq<Effect>,
}

impl Drop for Action {
    fn drop(self) {
        let Self {
            params: _,
            pre: _,
            add: _,
            del: _,
            effects: _,
        } = self;
    }
}
