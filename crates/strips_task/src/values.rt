//! The values that a problem gives to functions.
//!
//! A ground function, such as `(road-length a b)`, is a function applied to objects, all by number. It is kept as an [`Atom`],
//! with the number of the function in place of the number of a predicate.
ghost use Rattle.std.specs.Prelude.{◌≡◌, [], IfOk, OnOk, OnErr};
ghost use Rattle.strips_task.specs.Values.{value_of, with_value, given_over};

use crate::{Atom, Seed};
use indexmap::IndexMap;
use std::alloc::{AllocError, Global};
use std::marker::Model;

/// What a function had before [`FunctionValues::give`].
#[derive(Clone, Copy, PartialEq, Eq)]
pub enum Given {
    /// No value: this is its first.
    First,
    /// The same value.
    Again,
    /// Another value, which it keeps.
    Another,
}

/// Ground functions and their values in billionths, in the order in which they were given. Contracts see the list of these pairs.
pub struct FunctionValues {
    values: IndexMap<Atom, u64, Seed>,
}

impl Drop for FunctionValues {
    fn drop(self) {
        let Self { values: _ } = self;
    }
}

impl Model for FunctionValues {
    ghost use Rattle.std.specs.Prelude.{List, ℕ};
    ghost use Rattle.formulas.specs.declared.atoms.Atom.{Atom};

    ghost Value = { List (Atom × ℕ) };

    ghost view = { λ v. v.values.entries };
}

impl FunctionValues {
    /// The table in which no function has a value. It hashes with a seed, and takes no memory.
    pub fn new(alloc: Global, seed: Seed) -> Self
        ensures { result ≡ [] }
    {
        FunctionValues {
            values: IndexMap::with_hasher(alloc, seed),
        }
    }

    /// Gives a function a value in billionths, and says what it had before. A function that has a value
    /// keeps it. If memory runs out, nothing changes.
    pub fn give(&mut self, function: Atom, value: u64) -> Result<Given, AllocError>
        ensures given { IfOk result (λ given. given ≡ given_over (value_of self.old function) value) }
        ensures ok { OnOk result (self.new ≡ with_value self.old function value) }
        ensures err { OnErr result (self.new ≡ self.old) }
    {
        match self.value_of(&function) {
            None => {
                self.values.insert(function, value)?;
                Ok(Given::First)
            }
            Some(earlier) if earlier == value => Ok(Given::Again),
            Some(_) => Ok(Given::Another),
        }
    }

    /// The value of a function in billionths, if it has one. Takes one hash and no memory.
    pub fn value_of(&self, function: &Atom) -> Option<u64>
        ensures { result ≡ value_of self.now function.now }
    {
        self.values.get(function).copied()
    }
}
