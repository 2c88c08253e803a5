//! Which language a text is read as.

/// The language of a text.
#[derive(Clone, Copy, PartialEq, Eq)]
pub enum Dialect {
    /// STRIPS with types: only literals of predicates.
    Strips,
    /// STRIPS with types, and what many domains of the planning competitions also use: functions, effects that raise `total-cost` by their values
    /// (`:action-costs`, since the competition of 2008), and `=` between terms (`:equality`). A text of [`Dialect::Strips`] means the same here.
    Ipc,
    /// All of [`Dialect::Ipc`], and conditions and effects as in all of the first level of PDDL 2.1: `or`, `imply`, `not` before any formula, `exists` and
    /// `forall` in conditions, and `forall` and `when` in effects. A text of [`Dialect::Ipc`] means the same here.
    Adl,
}
