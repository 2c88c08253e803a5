//! Tables of things that have names: objects, predicates and actions.
//!
//! The number of an entry is its index in the table. An entry is found by its number or by the bytes of its name. A look-up takes no memory. A name
//! of at most 16 bytes is mostly found by two reads of memory, among the short names. For any other word, the bytes are hashed once and compared with
//! a name elsewhere in memory.
ghost use Rattle.std.specs.Prelude.{◌≡◌, ◌+◌, ◌<◌, ℕ, List, [], ◌∷◌, ◌++◌, true, length, slice_get, IsTrue, IfOk, IfNone, IfSome, OnOk, OnErr, IfErr, Some, None};
ghost use Rattle.pddl_words.specs.Words.{is_name, folded};
ghost use Rattle.std.specs.Map.{keys_of, values_of};
ghost use Rattle.std.specs.Map.Iter.{ShowsInOrder, deref};
ghost use Rattle.std.specs.Option.{option_copied};
ghost use Rattle.strips_task.specs.Names.{number_named, are_distinct, with_entry};

use crate::short_names::ShortNames;
use crate::{Name, NameKey, Seed};
use indexmap::IndexMap;
use indexmap::map::Values;
use pddl_words::ShortWord;
use std::alloc::{AllocError, AllocFailed, Global};
use std::marker::Model;

/// A table from distinct names to values, in the order in which they were inserted. Contracts see the list of its entries.
pub struct NameTable<V> {
    entries: IndexMap<Name, V, Seed>,
    /// The names of at most 16 bytes, or some of them. No answer depends on which.
    short_names: ShortNames,
}

impl<V: Drop> Drop for NameTable<V> {
    fn drop(self) {
        let Self {
            entries: _,
            short_names: _,
        } = self;
    }
}

impl<V> Model for NameTable<V> {
    ghost use Rattle.std.specs.Prelude.{List, ℕ};
    ghost use Rattle.strips_task.specs.ShortNames.{IsTable};

    ghost Value = { List (List ℕ × V) };

    ghost view = { λ t. t.entries.entries };

    ghost invariant = { λ t. IsTable t.entries.entries t.short_names };
}

impl<V> NameTable<V> {
    /// The empty table, which hashes with a seed. Takes no memory.
    pub fn new(alloc: Global, seed: Seed) -> Self
        ensures { result ≡ [] }
    {
        NameTable {
            entries: IndexMap::with_hasher(alloc, seed),
            short_names: ShortNames::new(alloc),
        }
    }

    /// The seed that the table hashes with.
    pub fn seed(&self) -> Seed {
        *self.entries.hasher()
    }

    /// How many entries the table has.
    pub fn len(&self) -> usize
        ensures len { result ≡ length self.now }
        ensures distinct { IsTrue (are_distinct (keys_of self.now)) }
    {
        self.entries.len()
    }

    /// The number of the entry with a name, by the bytes as they are: a word that is not in lower case has none. If it has a number, it is a name.
    /// Takes no memory.
    #[inline(always)]
    pub fn number_of(&self, word: &[u8]) -> Option<usize>
        ensures number { result ≡ number_named self.now word.now }
        ensures within { IfSome result (λ number. number < length self.now) }
        ensures named { IfSome result (λ _. (is_name word.now ≡ true) × (folded word.now ≡ word.now)) }
    {
        match self.short_names.find(word) {
            Some(number) => Some(number),
            None => self.number_among_all(word),
        }
    }

    /// The number of the entry with a name, as by `number_of`. Takes one hash of the bytes.
    #[inline(never)]
    fn number_among_all(&self, word: &[u8]) -> Option<usize>
        ensures number { result ≡ number_named self.now word.now }
        ensures within { IfSome result (λ number. number < length self.now) }
        ensures named { IfSome result (λ _. (is_name word.now ≡ true) × (folded word.now ≡ word.now)) }
    {
        match self.entries.get_index_of(NameKey { bytes: word }) {
            Some(number) => {
                // The word is the name of an entry, which is in lower case.
                let _name = self.get(number).0.as_bytes();
                Some(number)
            }
            None => None,
        }
    }

    /// The name and the value of the entry with a number.
    #[inline(always)]
    pub fn get(&self, number: usize) -> (&Name, &V)
        requires { number < length self.now }
        ensures { slice_get self.now number ≡ Some (result.0.now, result.1.now) }
    {
        self.entries.get_index(number).unwrap()
    }

    /// The value of the entry with a number, if there is one.
    #[inline(always)]
    pub fn value(&self, number: usize) -> Option<&V>
        ensures { option_copied result ≡ slice_get (values_of self.now) number }
    {
        if number < self.len() {
            Some(self.get(number).1)
        } else {
            None
        }
    }

    /// The values of all entries, in their order.
    pub fn values(&self) -> Values<'_, Name, V>
        ensures rest { result ≡ values_of self.now }
        ensures runs { ShowsInOrder (deref {X = V}) }
    {
        self.entries.values()
    }
}

impl<V: Drop> NameTable<V> {
    /// Makes room for `count` more entries, so that the table need not grow while they are added.
    pub fn reserve(&mut self, count: usize) -> Result<(), AllocError>
        ensures { self.new ≡ self.old }
    {
        self.short_names
            .reserve(self.entries.len().saturating_add(count))?;
        self.entries.reserve(count)
    }

    /// Gives a name a value, with one hash. An entry that has the name keeps its number, and its value before is given back. A new name goes last. If memory
    /// runs out, the name and the value are given back.
    pub fn insert(&mut self, name: Name, value: V) -> Result<Option<V>, AllocFailed<(Name, V)>>
        ensures entries { OnOk result (self.new ≡ with_entry self.old name value) }
        ensures absent { IfOk result (λ before. IfNone before (number_named self.old name ≡ None)) }
        ensures present { IfOk result (λ before. IfSome before (λ before. (number : ℕ) × (number_named self.old name ≡ Some number)
            × (slice_get self.old number ≡ Some (name, before)))) }
        ensures err { OnErr result (self.new ≡ self.old) }
        ensures value_returned { IfErr result (λ failed. failed.value ≡ (name, value)) }
    {
        match self.short_names.make_room(self.entries.len()) {
            Ok(()) => self.insert_entry(name, value),
            Err(AllocError) => Err(AllocFailed {
                value: (name, value),
            }),
        }
    }

    /// Gives a name a value, as `insert` does, and keeps a new name among the short names if they have room for it.
    #[inline(always)]
    fn insert_entry(&mut self, name: Name, value: V) -> Result<Option<V>, AllocFailed<(Name, V)>>
        ensures entries { OnOk result (self.new ≡ with_entry self.old name value) }
        ensures absent { IfOk result (λ before. IfNone before (number_named self.old name ≡ None)) }
        ensures present { IfOk result (λ before. IfSome before (λ before. (number : ℕ) × (number_named self.old name ≡ Some number)
            × (slice_get self.old number ≡ Some (name, before)))) }
        ensures err { OnErr result (self.new ≡ self.old) }
        ensures value_returned { IfErr result (λ failed. failed.value ≡ (name, value)) }
    {
        let short = ShortWord::of(name.as_bytes());
        let number = self.entries.len();
        if let Some(before) = self.entries.insert(name, value)? {
            return Ok(Some(before));
        }
        if let Some(short) = short {
            self.short_names.keep(short, number);
        }
        Ok(None)
    }

    /// Adds an entry at the end. Its name must be new, which `number_of` finds out. If memory runs out, the name and the value are given back.
    #[tactic(auto, using(crate::proofs::NamedEntries::inserted_new))]
    pub fn push(&mut self, name: Name, value: V) -> Result<(), AllocFailed<(Name, V)>>
        requires new_name { number_named self.old name ≡ None }
        ensures ok { OnOk result (self.new ≡ self.old ++ (name, value) ∷ []) }
        ensures err { OnErr result (self.new ≡ self.old) }
        ensures value_returned { IfErr result (λ failed. failed.value ≡ (name, value)) }
    {
        self.insert(name, value)?;
        Ok(())
    }
}
