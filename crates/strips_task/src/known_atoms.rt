//! The numbers of atoms of at most four objects, in one table.
//!
//! A slot has the key of an atom next to its number, so that most look-ups take one read of memory. At most three quarters of the slots are taken. A search
//! begins at the slot that the hash of the key chooses and goes on to the next slot, from the last one to the first, up to a free one. The hash depends
//! on secret numbers, so that nobody can choose atoms whose searches are long. A slot takes 16 bytes, so that an atom takes 22 to 43.
ghost use Rattle.std.specs.Prelude.{◌≡◌, ◌≢◌, ◌<◌, ◌+◌, ◌%◌, ◌↔◌, ℕ, All, Option, None, Some, IfNone, IfOk, IfSome, IsTrue, OnErr, OnOk};
ghost use Rattle.std.specs.Hash.FoldHasher.{folded_multiply};
ghost use Rattle.strips_task.specs.declared.atom_keys.AtomKey.{AtomKey};
ghost use Rattle.strips_task.specs.KnownAtoms.{AreRight, EndsAt, HasRight, IsKnown, first_slot, hash_of, key_in, table};

use crate::{AtomKey, Seed};
use std::alloc::{AllocError, Global};
use std::hash::BuildHasher;
use std::marker::Model;

/// How many slots there are at least.
const FIRST_SLOTS: usize = 16;

/// A slot for an atom and its number.
#[derive(Clone, Copy)]
pub(crate) struct Slot {
    /// The objects of the atom's key.
    objects: u64,
    /// The rest of the key.
    head: u32,
    /// The number that comes after the atom's. It is 0 if the slot is free.
    next: u32,
}

impl Slot {
    /// The key of its atom.
    #[inline(always)]
    fn key(self) -> AtomKey
        ensures { result ≡ key_in self }
    {
        AtomKey {
            objects: self.objects,
            head: self.head,
        }
    }
}

/// Atoms of at most four objects with their numbers. Contracts see the secret numbers and the slots.
pub(crate) struct KnownAtoms {
    /// A secret number that is mixed with the objects of a key.
    objects_by: u64,
    /// A secret number that is mixed with the rest of a key.
    head_by: u64,
    slots: Vec<Slot>,
    taken: usize,
}

impl Drop for KnownAtoms {
    fn drop(self) {
        let Self {
            objects_by: _,
            head_by: _,
            slots: _,
            taken: _,
        } = self;
    }
}

impl Model for KnownAtoms {
    ghost use Rattle.strips_task.specs.KnownAtoms.{Known};

    ghost Value = { Known };

    ghost view = { λ k. record { objects_by = k.objects_by; head_by = k.head_by; slots = k.slots.items } };
}

impl KnownAtoms {
    /// No atom. Takes no memory.
    pub(crate) fn new(alloc: Global, seed: Seed) -> Self
        ensures { (number_of : AtomKey → Option ℕ) → AreRight number_of result }
    {
        KnownAtoms {
            objects_by: seed.hash_one(&0u64),
            head_by: seed.hash_one(&1u64),
            slots: Vec::new(alloc),
            taken: 0,
        }
    }

    /// The number of an atom, if it is here.
    #[inline(always)]
    pub(crate) fn find(&self, key: AtomKey) -> Option<u32>
        ensures right { IfSome result (λ number. (number_of : AtomKey → Option ℕ) → AreRight number_of self.now → number_of key ≡ Some number) }
        ensures absent { result ≡ None → IsKnown self.now key → ⊥ }
    {
        match search(self.slots.as_slice(), self.objects_by, self.head_by, key) {
            Place::Has(number) => Some(number),
            Place::Free(_) => None,
            Place::Nowhere => None,
        }
    }

    /// Whether the search for an atom begins at a free slot, so that the atom is not here. Takes one read of memory.
    #[inline(always)]
    pub(crate) fn begins_free(&self, key: AtomKey) -> bool
        ensures { IsTrue result → IsKnown self.now key → ⊥ }
    {
        let slots = self.slots.as_slice();
        if slots.is_empty() {
            return true;
        }
        slots[first_slot(hash_of(self.objects_by, self.head_by, key), slots.len())].next == 0
    }

    /// Adds an atom with its number, unless it is here.
    pub(crate) fn keep(&mut self, key: AtomKey, number: u32) -> Result<(), AllocError>
        ensures right { (number_of : AtomKey → Option ℕ) → number_of key ≡ Some number → AreRight number_of self.old → AreRight number_of self.new }
        ensures failed { OnErr result ((number_of : AtomKey → Option ℕ) → AreRight number_of self.old → AreRight number_of self.new) }
        ensures known { OnOk result (IsKnown self.new key) }
        ensures still { (other : AtomKey) → IsKnown self.old other → IsKnown self.new other }
    {
        self.find_or_keep(key, number)?;
        Ok(())
    }

    /// The number of an atom, if it is here. Otherwise adds it with this number. Searches once. Makes more slots if three quarters of them are taken.
    #[inline(always)]
    pub(crate) fn find_or_keep(
        &mut self,
        key: AtomKey,
        number: u32,
    ) -> Result<Option<u32>, AllocError>
        ensures found { IfOk result (λ found. IfSome found (λ there. (number_of : AtomKey → Option ℕ) → AreRight number_of self.old → number_of key ≡ Some there)) }
        ensures absent { IfOk result (λ found. IfNone found (IsKnown self.old key → ⊥)) }
        ensures right { IfOk result (λ found. (number_of : AtomKey → Option ℕ) → (found ≡ None → number_of key ≡ Some number) → AreRight number_of self.old → AreRight number_of self.new) }
        ensures failed { OnErr result ((number_of : AtomKey → Option ℕ) → AreRight number_of self.old → AreRight number_of self.new) }
        ensures known { OnOk result (IsKnown self.new key) }
        ensures still { (other : AtomKey) → IsKnown self.old other → IsKnown self.new other }
    {
        if number == u32::MAX {
            return Err(AllocError);
        }
        if self.taken >= self.slots.len() / 4 * 3 {
            self.expect(1)?;
        }
        match search(self.slots.as_slice(), self.objects_by, self.head_by, key) {
            Place::Has(number) => Ok(Some(number)),
            Place::Free(index) => {
                self.slots[index] = Slot {
                    objects: key.objects,
                    head: key.head,
                    next: number + 1,
                };
                self.taken = self.taken.saturating_add(1);
                Ok(None)
            }
            Place::Nowhere => Err(AllocError),
        }
    }

    /// Makes more slots if those that there are have no room for `count` more atoms.
    pub(crate) fn expect(&mut self, count: usize) -> Result<(), AllocError>
        ensures right { (number_of : AtomKey → Option ℕ) → AreRight number_of self.old → AreRight number_of self.new }
        ensures still { (other : AtomKey) → IsKnown self.old other → IsKnown self.new other }
    {
        let wanted = self.taken.saturating_add(count);
        if wanted <= self.slots.len() / 4 * 3 {
            return Ok(());
        }
        self.grow(slots_for(wanted)?)
    }

    /// Makes `count` slots, with the same atoms.
    fn grow(&mut self, count: usize) -> Result<(), AllocError>
        ensures right { (number_of : AtomKey → Option ℕ) → AreRight number_of self.old → AreRight number_of self.new }
        ensures still { (other : AtomKey) → IsKnown self.old other → IsKnown self.new other }
    {
        let mut slots = Vec::new(*self.slots.allocator());
        slots.resize(count, free())?;
        put_all(
            &mut slots,
            self.objects_by,
            self.head_by,
            self.slots.as_slice(),
        )?;
        self.slots = slots;
        Ok(())
    }
}

/// How many slots there are for so many atoms: a power of two, so that a hash chooses all of them alike.
fn slots_for(atoms: usize) -> Result<usize, AllocError> {
    if atoms > usize::MAX / 16 {
        return Err(AllocError);
    }
    Ok((atoms / 3 * 4 + 8).max(FIRST_SLOTS).next_power_of_two())
}

/// A slot without an atom.
fn free() -> Slot
    ensures { result.next ≡ 0 }
{
    Slot {
        objects: 0,
        head: 0,
        next: 0,
    }
}

/// The hash of a key, which depends on two numbers.
#[inline(always)]
fn hash_of(objects_by: u64, head_by: u64, key: AtomKey) -> u64
    ensures { result ≡ hash_of objects_by head_by key }
{
    folded_multiply(key.objects ^ objects_by, u64::from(key.head) ^ head_by)
}

/// The two halves of the 128 bits of a product, joined by an exclusive or.
#[inline(always)]
fn folded_multiply(a: u64, b: u64) -> u64
    ensures { result ≡ folded_multiply a b }
{
    let product = a as u128 * b as u128;
    (product & 0xFFFF_FFFF_FFFF_FFFF) as u64 ^ (product >> 64) as u64
}

/// The index of the slot, of so many, at which the search for a hash begins.
#[inline(always)]
#[tactic(auto, using(std::proofs::lemmas::Nat::and_le_r))]
fn first_slot(hash: u64, count: usize) -> usize
    requires { 0 < count }
    ensures index { result ≡ first_slot hash count }
    ensures within { result < count }
{
    hash as usize & (count - 1)
}

/// The index of the slot after one, of so many. After the last comes the first.
#[inline(always)]
fn slot_after(index: usize, count: usize) -> usize
    requires { index < count }
    ensures after { result ≡ (index + 1) % count }
    ensures within { result < count }
{
    if index + 1 == count { 0 } else { index + 1 }
}

/// Whether two keys are the same.
#[inline(always)]
fn is_same(key: AtomKey, other: AtomKey) -> bool
    ensures { IsTrue result ↔ (key ≡ other) }
{
    key.objects == other.objects && key.head == other.head
}

/// Where the search for an atom ends.
#[derive(Drop)]
enum Place {
    /// At the slot that has the atom, with this number.
    Has(u32),
    /// At the free slot with this index, so that the atom is not here.
    Free(usize),
    /// Nowhere: all slots are taken by others.
    Nowhere,
}

/// Where the search for a key ends.
#[inline(always)]
fn search(slots: &[Slot], objects_by: u64, head_by: u64, key: AtomKey) -> Place
    ensures { EndsAt (table objects_by head_by slots.now) key result }
{
    if slots.is_empty() {
        return Place::Nowhere;
    }
    let mut index = first_slot(hash_of(objects_by, head_by, key), slots.len());
    for step in 0..slots.len() {
        let slot = slots[index];
        if slot.next == 0 {
            return Place::Free(index);
        }
        if is_same(slot.key(), key) {
            return Place::Has(slot.next - 1);
        }
        index = slot_after(index, slots.len());
    }
    Place::Nowhere
}

/// Puts an atom into the free slot to which the search for it comes. If it comes to none, nothing changes.
fn put(slots: &mut Vec<Slot>, objects_by: u64, head_by: u64, slot: Slot) -> Result<(), AllocError>
    requires { slot.next ≢ 0 }
    ensures placed { OnOk result (IsKnown (table objects_by head_by slots.new.items) (key_in slot)) }
    ensures kept { (other : AtomKey) → IsKnown (table objects_by head_by slots.old.items) other → IsKnown (table objects_by head_by slots.new.items) other }
    ensures full { OnErr result (slots.new.items ≡ slots.old.items) }
    ensures right { (number_of : AtomKey → Option ℕ) → HasRight number_of slot → All (HasRight number_of) slots.old.items → All (HasRight number_of) slots.new.items }
{
    let Place::Free(index) = search(slots.as_slice(), objects_by, head_by, slot.key()) else {
        return Err(AllocError);
    };
    slots[index] = slot;
    Ok(())
}

/// Puts the atoms of slots into others.
fn put_all(
    slots: &mut Vec<Slot>,
    objects_by: u64,
    head_by: u64,
    others: &[Slot],
) -> Result<(), AllocError>
    ensures placed { OnOk result (All (λ slot. slot.next ≢ 0 → IsKnown (table objects_by head_by slots.new.items) (key_in slot)) others.now) }
    ensures right { (number_of : AtomKey → Option ℕ) → All (HasRight number_of) others.now → All (HasRight number_of) slots.old.items → All (HasRight number_of) slots.new.items }
{
    for slot in others {
        if slot.next != 0 {
            put(slots, objects_by, head_by, *slot)?;
        }
    }
    Ok(())
}
