//! Dialects by their numbers.
ghost use Rattle.std.specs.Prelude.{◌≡◌};
ghost use Rattle.c_values.specs.Dialects.{dialect_numbered};

use pddl_syntax::Dialect;

/// The dialect with a number: 0 for `strips`, 1 for `ipc`, 2 for `adl`.
pub fn dialect_numbered(number: u32) -> Option<Dialect>
    ensures { result ≡ dialect_numbered number }
{
    match number {
        0 => Some(Dialect::Strips),
        1 => Some(Dialect::Ipc),
        2 => Some(Dialect::Adl),
        _ => None,
    }
}
