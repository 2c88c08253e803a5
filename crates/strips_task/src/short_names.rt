//! The numbers of names of at most 16 bytes.
//!
//! A table of names hashes the word that is looked up byte by byte, and compares it with a name elsewhere in memory. Here a name is kept as two numbers,
//! next to the number of its entry. The names are in the order in which they were added, so that names that are declared one after the other are near
//! each other. Beside them is a list of slots. A slot has the index of a name and 16 bits of its hash. A name is in one of eight slots, which its bytes
//! choose. If they are all taken when it is added, or 65,535 names are here already, it is only in the table of all names. No answer depends on that, so
//! someone who chooses names for the same slots only makes them be looked up there.
//!
//! A name takes 24 bytes, and a slot 4. There are two to four slots for each name of the table, so 32 to 40 bytes a name. The slots of all the
//! objects that a task can have take half a megabyte, which the cache of many a processor holds.
ghost use Rattle.std.specs.Prelude.{◌≡◌, ◌≢◌, ◌≤◌, ◌<◌, ◌+◌, ℕ, List, Option, Some, All, IfSome, length};
ghost use Rattle.formulas.specs.Names.{IsStoredName};
ghost use Rattle.pddl_words.specs.ShortWords.{IsWord};
ghost use Rattle.strips_task.specs.ShortNames.{IsNumbered, name_of};

use pddl_words::ShortWord;
use std::alloc::{AllocError, Global};
use std::marker::Model;

/// How many slots there are for a name.
const WAYS: usize = 8;

/// How many slots there are at first: 16 that a hash can choose, and seven after the last of them.
const FIRST_SLOTS: usize = 23;

/// A name and the number of its entry.
#[derive(Clone, Copy)]
pub(crate) struct Numbered {
    front: u64,
    back: u64,
    /// How many bytes the name has.
    len: u32,
    number: u32,
}

impl Numbered {
    /// Its name.
    #[inline]
    fn name(self) -> ShortWord
        ensures { result ≡ name_of self }
    {
        ShortWord {
            front: self.front,
            back: self.back,
            len: self.len,
        }
    }
}

/// A slot for the index of a name.
#[derive(Clone, Copy)]
struct Slot {
    /// The low bits of the name's hash.
    tag: u16,
    /// The index that comes after the name's. It is 0 if the slot is free.
    next: u16,
}

/// Names of at most 16 bytes with the numbers of their entries. Contracts see the list of them.
pub(crate) struct ShortNames {
    names: Vec<Numbered>,
    /// None, or a power of two that a hash can choose and seven more, so that there are eight from each of those on.
    slots: Vec<Slot>,
}

impl Drop for ShortNames {
    fn drop(self) {
        let Self { names: _, slots: _ } = self;
    }
}

impl Model for ShortNames {
    ghost use Rattle.std.specs.Prelude.{List};
    ghost use Rattle.strips_task.specs.declared.short_names.Numbered.{Numbered};

    ghost Value = { List Numbered };

    ghost view = { λ s. s.names.items };
}

impl ShortNames {
    /// No name. Takes no memory.
    pub(crate) fn new(alloc: Global) -> Self
        ensures { (number_of : List ℕ → Option ℕ) → All (IsNumbered number_of) result }
    {
        ShortNames {
            names: Vec::new(alloc),
            slots: Vec::new(alloc),
        }
    }

    /// The number of a word, if it is here.
    #[inline(always)]
    pub(crate) fn find(&self, word: &[u8]) -> Option<usize>
        ensures { IfSome result (λ number. (number_of : List ℕ → Option ℕ) → All (IsNumbered number_of) self.now
            → IsStoredName word.now × (number_of word.now ≡ Some number)) }
    {
        let asked = ShortWord::of(word)?;
        self.find_short(asked)
    }

    /// The number of a name, if it is here. Reads its slots up to the first free one, at most eight, and a name for each with the same bits of its hash.
    #[inline(always)]
    fn find_short(&self, asked: ShortWord) -> Option<usize>
        requires { asked.len ≢ 0 }
        ensures { IfSome result (λ number. (number_of : List ℕ → Option ℕ) → All (IsNumbered number_of) self.now → (word : List ℕ) → IsWord asked word
            → IsStoredName word × (number_of word ≡ Some number)) }
    {
        let slots = self.slots.as_slice();
        if slots.len() < WAYS {
            return None;
        }
        let hash = asked.hash();
        let first = first_slot(hash, slots.len());
        search(
            &slots[first..first + WAYS],
            tag_of(hash),
            self.names.as_slice(),
            asked,
        )
    }

    /// Makes room for one more name, and twice as many slots if there are fewer than two for each of `names` names and one more.
    pub(crate) fn make_room(&mut self, names: usize) -> Result<(), AllocError>
        ensures { self.new ≡ self.old }
    {
        self.names.reserve(1)?;
        if names < self.slots.len() / 2 {
            return Ok(());
        }
        let count = slots_after(self.slots.len());
        self.make_slots(count)
    }

    /// Makes room for `names` names in all.
    pub(crate) fn reserve(&mut self, names: usize) -> Result<(), AllocError>
        ensures { self.new ≡ self.old }
    {
        if names < self.slots.len() / 2 {
            return Ok(());
        }
        self.names.reserve(names.saturating_sub(self.names.len()))?;
        self.make_slots(slots_for(names)?)
    }

    /// Makes `count` slots in place of those that there are.
    fn make_slots(&mut self, count: usize) -> Result<(), AllocError>
        ensures { self.new ≡ self.old }
    {
        let mut slots = empty_slots(*self.slots.allocator(), count)?;
        put_all(&mut slots, self.names.as_slice());
        self.slots = slots;
        Ok(())
    }

    /// Keeps a name with its number, if there is memory for it.
    #[inline(always)]
    pub(crate) fn keep(&mut self, name: ShortWord, number: usize)
        ensures { (number_of : List ℕ → Option ℕ) → ((word : List ℕ) → IsWord name word → IsStoredName word × (number_of word ≡ Some number))
            → All (IsNumbered number_of) self.old → All (IsNumbered number_of) self.new }
    {
        if number > u32::MAX as usize {
            return;
        }
        let numbered = Numbered {
            front: name.front,
            back: name.back,
            len: name.len,
            number: number as u32,
        };
        let index = self.names.len();
        if self.names.push(numbered).is_ok() {
            put(&mut self.slots, name.hash(), index);
        }
    }
}

/// How many slots there are after `count`: twice as many that a hash can choose.
fn slots_after(count: usize) -> usize {
    count
        .saturating_mul(2)
        .saturating_sub(WAYS - 1)
        .max(FIRST_SLOTS)
}

/// How many slots there are for so many names: two for each, rounded up to a power of two, that a hash can choose.
fn slots_for(names: usize) -> Result<usize, AllocError> {
    if names > usize::MAX / 8 {
        return Err(AllocError);
    }
    Ok(((names * 2).next_power_of_two() + WAYS - 1).max(FIRST_SLOTS))
}

/// `count` free slots.
fn empty_slots(alloc: Global, count: usize) -> Result<Vec<Slot>, AllocError> {
    let mut slots = Vec::new(alloc);
    slots.resize(count, Slot { tag: 0, next: 0 })?;
    Ok(slots)
}

/// Puts the indexes of all names into slots.
fn put_all(slots: &mut Vec<Slot>, names: &[Numbered]) {
    for (index, numbered) in names.iter().enumerate() {
        put(slots, numbered.name().hash(), index);
    }
}

/// Puts the index of a name with a hash into the first of its slots that is free. If none is, or the index is too large for a slot, it is left out.
#[inline(always)]
fn put(slots: &mut Vec<Slot>, hash: u64, index: usize) {
    if slots.len() < WAYS || index >= u16::MAX as usize {
        return;
    }
    if let Some(free) = free_slot(slots.as_slice(), hash) {
        slots[free] = Slot {
            tag: tag_of(hash),
            next: index as u16 + 1,
        };
    }
}

/// The index of the first slot of a hash that is free, if one is.
#[inline(always)]
fn free_slot(slots: &[Slot], hash: u64) -> Option<usize>
    requires { 8 ≤ length slots.now }
    ensures { IfSome result (λ index. index < length slots.now) }
{
    let first = first_slot(hash, slots.len());
    for index in first..first + WAYS {
        if slots[index].next == 0 {
            return Some(index);
        }
    }
    None
}

/// The bits of a hash that a slot keeps.
#[inline]
fn tag_of(hash: u64) -> u16 {
    (hash % 65_536) as u16
}

/// The index of the first of the eight slots of a hash, among `slots` slots.
#[inline]
#[tactic(auto, using(std::proofs::lemmas::Nat::and_le_r))]
fn first_slot(hash: u64, slots: usize) -> usize
    requires { 8 ≤ slots }
    ensures { result + 8 ≤ slots }
{
    (hash >> 32) as usize & (slots - WAYS)
}

/// The number of a name, if one of these slots has its index. They are taken in this order, so a free one ends the search.
#[inline]
fn search(slots: &[Slot], tag: u16, names: &[Numbered], asked: ShortWord) -> Option<usize>
    ensures { IfSome result (λ number. (number_of : List ℕ → Option ℕ) → All (IsNumbered number_of) names.now → (word : List ℕ) → IsWord asked word
        → IsStoredName word × (number_of word ≡ Some number)) }
{
    for slot in slots {
        if slot.next == 0 {
            return None;
        }
        if slot.tag == tag {
            if let Some(number) = number_at(names, slot.next as usize - 1, asked) {
                return Some(number);
            }
        }
    }
    None
}

/// The number beside the name at an index, if that is the name that is asked for.
#[inline(always)]
fn number_at(names: &[Numbered], index: usize, asked: ShortWord) -> Option<usize>
    ensures { IfSome result (λ number. (number_of : List ℕ → Option ℕ) → All (IsNumbered number_of) names.now → (word : List ℕ) → IsWord asked word
        → IsStoredName word × (number_of word ≡ Some number)) }
{
    if index >= names.len() {
        return None;
    }
    let numbered = names[index];
    if numbered.name().is(asked) {
        Some(numbered.number as usize)
    } else {
        None
    }
}
