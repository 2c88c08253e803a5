//! The initial atoms of a task, numbered once.
//!
//! Many plans are judged against one task, and a task may have hundreds of thousands of initial atoms. So the distinct ones are numbered
//! when the task is made, and judging a plan costs one bit for each, not one hash.
ghost use Rattle.std.specs.Prelude.{◌≡◌, ◌+◌, ◌<◌, ◌≤◌, count_by, is_some, List, [], ◌∷◌, ◌++◌, length, slice_get, All, IfSome, OnOk, OnErr, IfErr, Some};
ghost use Rattle.std.specs.List.{position_from};
ghost use Rattle.strips_task.specs.FirstOccurrences.{first_occurrences};
ghost use Rattle.formulas.specs.Atom.{atom_eq};
ghost use Rattle.strips_task.specs.AtomKeys.{IsKeyOf, atom_of};
ghost use Rattle.strips_task.specs.AtomTables.{kept_atom};

use crate::atom_table::AtomTable;
use crate::{Atom, AtomKey, KeptAtom, Seed};
use std::alloc::{AllocError, AllocFailed, Global};
use std::marker::Model;

/// The initial atoms in the order of the text, repeats kept. Contracts see the list of them.
pub struct InitialAtoms {
    distinct: AtomTable,
    /// For each atom of the text its number in the table.
    numbers: Vec<u32>,
}

impl Drop for InitialAtoms {
    fn drop(self) {
        let Self {
            distinct: _,
            numbers: _,
        } = self;
    }
}

impl Model for InitialAtoms {
    ghost use Rattle.std.specs.Prelude.{◌≡◌, ◌<◌, List, All, length, slice_get};
    ghost use Rattle.std.specs.List.{filter_map};
    ghost use Rattle.formulas.specs.Atom.{atom_eq};
    ghost use Rattle.strips_task.specs.FirstOccurrences.{first_occurrences};
    ghost use Rattle.formulas.specs.declared.atoms.Atom.{Atom};

    ghost Value = { List Atom };

    ghost view = { λ s. filter_map (slice_get s.distinct) s.numbers.items };

    // Each number is that of an atom, and the distinct atoms are in the order in which they first occur.
    ghost invariant = { λ s. (All (λ n. n < length s.distinct) s.numbers.items)
        × (s.distinct ≡ first_occurrences atom_eq (filter_map (slice_get s.distinct) s.numbers.items)) };
}

impl InitialAtoms {
    /// The empty list, which hashes with a seed. Takes no memory.
    pub fn new(alloc: Global, seed: Seed) -> Self
        ensures { result ≡ [] }
    {
        InitialAtoms {
            distinct: AtomTable::new(alloc, seed),
            numbers: Vec::new(alloc),
        }
    }

    /// Makes room for `count` more atoms if there is memory for it, so that the table need not grow while they are pushed. The list does not change.
    pub fn expect(&mut self, count: usize)
        ensures { self.new ≡ self.old }
    {
        let _ = self.numbers.reserve(count);
        self.distinct.expect(count);
    }

    /// Adds an atom at the end, with one hash. If memory runs out, the atom is given back.
    pub fn push(&mut self, atom: Atom) -> Result<(), AllocFailed<Atom>>
        ensures ok { OnOk result (self.new ≡ self.old ++ atom ∷ []) }
        ensures err { OnErr result (self.new ≡ self.old) }
        ensures value_returned { IfErr result (λ failed. failed.value ≡ atom) }
    {
        if self.numbers.reserve(1).is_err() {
            return Err(AllocFailed { value: atom });
        }
        let number = self.distinct.insert(atom)?;
        self.numbers.push_reserved(number);
        Ok(())
    }

    /// Adds the atom of a key at the end, with one hash.
    #[inline(always)]
    pub fn push_packed(&mut self, key: AtomKey) -> Result<(), AllocError>
        requires { IsKeyOf (atom_of key) key }
        ensures ok { OnOk result (self.new ≡ self.old ++ atom_of key ∷ []) }
        ensures err { OnErr result (self.new ≡ self.old) }
    {
        self.numbers.reserve(1)?;
        let number = self.distinct.insert_packed(key)?;
        self.numbers.push_reserved(number);
        Ok(())
    }

    /// The seed that the list hashes with.
    pub fn seed(&self) -> Seed {
        self.distinct.seed()
    }

    /// How many atoms the list holds, including repeats.
    pub fn len(&self) -> usize
        ensures { result ≡ length self.now }
    {
        self.numbers.len()
    }

    /// The atom with an index in the order of the text, counted from 0.
    pub fn get(&self, index: usize) -> KeptAtom<'_>
        requires { index < length self.now }
        ensures { slice_get self.now index ≡ Some (kept_atom result) }
    {
        self.distinct.get(self.numbers[index])
    }

    /// The distinct atoms, in the order in which they first occur.
    #[inline(always)]
    pub fn distinct(&self) -> &AtomTable
        ensures { result.now ≡ first_occurrences atom_eq self.now }
    {
        &self.distinct
    }

    /// How many distinct atoms the list holds.
    pub fn distinct_len(&self) -> usize
        ensures { result ≡ length (first_occurrences atom_eq self.now) }
    {
        self.distinct.len()
    }

    /// The number of an atom among the distinct ones, in the order in which they first occur. Takes one hash and no memory.
    pub fn number_of(&self, atom: &Atom) -> Option<usize>
        ensures number { result ≡ position_from (atom_eq atom.now) 0 (first_occurrences atom_eq self.now) }
        ensures within { IfSome result (λ number. number < length (first_occurrences atom_eq self.now)) }
    {
        match self.distinct.number_of(atom) {
            Some(number) => Some(number as usize),
            None => None,
        }
    }
}
