//! Distinct ground atoms, each with its number.
//!
//! The number of an atom is its index in the order in which the atoms were added. An atom of at most four objects is kept as its key, and found by one
//! read of memory in most cases. Atoms of more objects have a hash table of their own. An atom of few objects takes 16 bytes in the order, and 22 to 43
//! for its slot.
ghost use Rattle.std.specs.Prelude.{◌≡◌, ◌<◌, ◌≤◌, ◌++◌, ◌∷◌, [], IfErr, IfOk, None, OnErr, OnOk, Some, length, slice_get};
ghost use Rattle.indexmap.specs.IndexSet.{insert_key};
ghost use Rattle.formulas.specs.declared.atoms.Atom.{Atom};
ghost use Rattle.formulas.specs.Atom.{atom_eq};
ghost use Rattle.strips_task.specs.AtomKeys.{IsKeyOf, atom_of};
ghost use Rattle.strips_task.specs.AtomNumbers.{number_in};
ghost use Rattle.strips_task.specs.AtomTables.{kept_atom};

use crate::known_atoms::KnownAtoms;
use crate::{Atom, AtomKey, Seed};
use indexmap::IndexMap;
use std::alloc::{AllocError, AllocFailed, Global};
use std::marker::Model;

/// The head of an entry for an atom of more than four objects.
const MANY: u32 = 5 * 65_536;

/// An atom of a table.
#[derive(Clone, Copy)]
pub enum KeptAtom<'t> {
    /// The key of an atom of at most four objects.
    Few(AtomKey),
    /// An atom of more objects.
    Many(&'t Atom),
}

/// Distinct atoms in the order in which they were added. Contracts see the list of them.
pub struct AtomTable {
    /// For each atom its key. If it has more than four objects, the head says so, and in place of the objects is its index among those.
    entries: Vec<AtomKey>,
    packed: KnownAtoms,
    /// The atoms of more than four objects with their numbers.
    wide: IndexMap<Atom, u32, Seed>,
}

impl Drop for AtomTable {
    fn drop(self) {
        let Self {
            entries: _,
            packed: _,
            wide: _,
        } = self;
    }
}

impl Model for AtomTable {
    ghost use Rattle.std.specs.Prelude.{List};
    ghost use Rattle.strips_task.specs.AtomTables.{IsAtomTable, atoms_of};
    ghost use Rattle.formulas.specs.declared.atoms.Atom.{Atom};

    ghost Value = { List Atom };

    ghost view = { λ t. atoms_of t.wide.entries t.entries.items };

    ghost invariant = { λ t. IsAtomTable t.entries.items t.packed t.wide.entries };
}

impl AtomTable {
    /// No atom. Takes no memory.
    pub fn new(alloc: Global, seed: Seed) -> Self
        ensures { result ≡ [] }
    {
        AtomTable {
            entries: Vec::new(alloc),
            packed: KnownAtoms::new(alloc, seed),
            wide: IndexMap::with_hasher(alloc, seed),
        }
    }

    /// The seed that the table hashes with.
    pub fn seed(&self) -> Seed {
        *self.wide.hasher()
    }

    /// How many atoms there are.
    #[inline(always)]
    pub fn len(&self) -> usize
        ensures { result ≡ length self.now }
    {
        self.entries.len()
    }

    /// The atom with a number.
    pub fn get(&self, number: u32) -> KeptAtom<'_>
        requires { number < length self.now }
        ensures { slice_get self.now number ≡ Some (kept_atom result) }
    {
        let entry = self.entries[number as usize];
        if entry.count() <= 4 {
            return KeptAtom::Few(entry);
        }
        let index = entry.objects as usize;
        KeptAtom::Many(self.wide.get_index(index).unwrap().0)
    }

    /// The number of the atom of a key. Takes one read of memory in most cases.
    #[inline(always)]
    pub fn find(&self, key: AtomKey) -> Option<u32>
        ensures { (atom : Atom) → IsKeyOf atom key → result ≡ number_in self.now atom }
    {
        self.packed.find(key)
    }

    /// The number of an atom of more than four objects. Takes one hash.
    #[inline(never)]
    pub fn find_wide(&self, atom: &Atom) -> Option<u32>
        requires { 4 < length atom.now.args }
        ensures { result ≡ number_in self.now atom.now }
    {
        self.wide.get(atom).copied()
    }

    /// The number of an atom. Takes no memory.
    #[inline]
    pub fn number_of(&self, atom: &Atom) -> Option<u32>
        ensures { result ≡ number_in self.now atom.now }
    {
        match AtomKey::of(atom) {
            Some(key) => self.find(key),
            None => self.find_wide(atom),
        }
    }

    /// How many of the atoms of these keys are surely not here, as one read of memory for each tells: at least so many slots will be wanted. The reads come
    /// directly one after the other, so that the processor waits for several of them at the same time. No answer depends on it.
    #[inline(always)]
    pub fn surely_new(&self, keys: &[AtomKey]) -> usize
        ensures { result ≤ length keys.now }
    {
        keys.iter()
            .filter(|key| self.packed.begins_free(**key))
            .count()
    }

    /// Makes room for `count` more atoms of few objects if there is memory for it.
    pub fn expect(&mut self, count: usize)
        ensures { self.new ≡ self.old }
    {
        let _ = self.entries.reserve(count);
        let _ = self.packed.expect(count);
    }

    /// Adds the atom of a key, which is not here, at the end, and answers its number.
    pub fn push_packed(&mut self, key: AtomKey) -> Result<u32, AllocError>
        requires key { IsKeyOf (atom_of key) key }
        requires new { number_in self.old (atom_of key) ≡ None }
        ensures ok { OnOk result (self.new ≡ self.old ++ atom_of key ∷ []) }
        ensures number { IfOk result (λ number. number ≡ length self.old) }
        ensures err { OnErr result (self.new ≡ self.old) }
    {
        let number = self.next_number()?;
        self.entries.reserve(1)?;
        self.packed.keep(key, number)?;
        self.entries.push_reserved(key);
        Ok(number)
    }

    /// Adds an atom of more than four objects, which is not here, at the end, and answers its number. If memory runs out, the atom is given back.
    pub fn push_wide(&mut self, atom: Atom) -> Result<u32, AllocFailed<Atom>>
        requires many { 4 < length atom.args }
        requires new { number_in self.old atom ≡ None }
        ensures ok { OnOk result (self.new ≡ self.old ++ atom ∷ []) }
        ensures number { IfOk result (λ number. number ≡ length self.old) }
        ensures err { OnErr result (self.new ≡ self.old) }
        ensures value_returned { IfErr result (λ failed. failed.value ≡ atom) }
    {
        let Ok(number) = self.next_number() else {
            return Err(AllocFailed { value: atom });
        };
        if self.entries.reserve(1).is_err() {
            return Err(AllocFailed { value: atom });
        }
        let index = self.wide.len() as u64;
        if let Err(failed) = self.wide.insert(atom, number) {
            return Err(AllocFailed {
                value: failed.value.0,
            });
        }
        self.entries.push_reserved(AtomKey {
            objects: index,
            head: MANY,
        });
        Ok(number)
    }

    /// Adds the atom of a key at the end, unless it is here, and answers its number. If there is no room for one atom more and no memory, it is refused
    /// even if the atom is here.
    #[inline(always)]
    pub fn insert_packed(&mut self, key: AtomKey) -> Result<u32, AllocError>
        requires { IsKeyOf (atom_of key) key }
        ensures ok { OnOk result (self.new ≡ insert_key atom_eq self.old (atom_of key)) }
        ensures number { IfOk result (λ number. slice_get self.new number ≡ Some (atom_of key)) }
        ensures err { OnErr result (self.new ≡ self.old) }
    {
        let next = self.next_number()?;
        self.entries.reserve(1)?;
        match self.packed.find_or_keep(key, next)? {
            Some(number) => Ok(number),
            None => {
                self.entries.push_reserved(key);
                Ok(next)
            }
        }
    }

    /// Adds an atom of more than four objects at the end, unless it is here, and answers its number. If memory runs out, the atom is given back.
    fn insert_wide(&mut self, atom: Atom) -> Result<u32, AllocFailed<Atom>>
        requires { 4 < length atom.args }
        ensures ok { OnOk result (self.new ≡ insert_key atom_eq self.old atom) }
        ensures number { IfOk result (λ number. slice_get self.new number ≡ Some atom) }
        ensures err { OnErr result (self.new ≡ self.old) }
        ensures value_returned { IfErr result (λ failed. failed.value ≡ atom) }
    {
        match self.find_wide(&atom) {
            Some(number) => Ok(number),
            None => self.push_wide(atom),
        }
    }

    /// Adds an atom at the end, unless it is here, and answers its number. If memory runs out, the atom is given back.
    pub fn insert(&mut self, atom: Atom) -> Result<u32, AllocFailed<Atom>>
        ensures ok { OnOk result (self.new ≡ insert_key atom_eq self.old atom) }
        ensures number { IfOk result (λ number. slice_get self.new number ≡ Some atom) }
        ensures err { OnErr result (self.new ≡ self.old) }
        ensures value_returned { IfErr result (λ failed. failed.value ≡ atom) }
    {
        let Some(key) = AtomKey::of(&atom) else {
            return self.insert_wide(atom);
        };
        match self.insert_packed(key) {
            Ok(number) => Ok(number),
            Err(AllocError) => Err(AllocFailed { value: atom }),
        }
    }

    /// The number that comes next, if it has 32 bits.
    #[inline(always)]
    fn next_number(&self) -> Result<u32, AllocError>
        ensures { IfOk result (λ number. number ≡ length self.now) }
    {
        if self.entries.len() >= u32::MAX as usize {
            return Err(AllocError);
        }
        Ok(self.entries.len() as u32)
    }
}
