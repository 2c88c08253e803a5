//! The table of known steps.
//!
//! A step is found by the bytes that spell it: one hash with two secret numbers, since planners choose the bytes, then one slot of the
//! table after the other up to an empty one. The bytes of all keys are in one buffer, and the numbers and the instructions of all codes in two others, so
//! that a step that is learned takes no memory of its own. All of it grows as steps are learned, up to bounds.
ghost use Rattle.std.specs.Prelude.{◌≡◌, ◌+◌, ◌<◌, ◌≤◌, ◌^◌, ◌∷◌, ◌++◌, [], ℕ, List, false, length, slice_get, slice_range, Some, All, IsTrue, IfSome, IfOk, OnErr, vec_capacity, vec_len};
ghost use Rattle.step_codes.specs.Codes.{code_shown};
ghost use Rattle.text_judge.specs.Known.{known_at, IsEntry, IsEntryFor};

use crate::memo_limits::MemoLimits;
use pddl_words::{KeyedHash, are_same};
use std::alloc::{AllocError, Global};
use std::hash::BuildHasher;
use std::marker::Model;
use step_codes::{Instruction, StepCode};
use strips_task::Seed;

/// How many slots a table has at first.
const FIRST_SLOTS: usize = 64;

/// What is in an empty slot. It is the number of no step.
const EMPTY: u32 = u32::MAX;

/// Where a known step is kept: its key among the bytes, and its code among the numbers, the four lists of the code one after the other, and among the
/// instructions.
#[derive(Clone, Copy)]
pub(crate) struct Entry {
    pub amount: u64,
    pub hash: u32,
    pub key_start: u32,
    pub key_end: u32,
    pub start: u32,
    pub needed_end: u32,
    pub forbidden_end: u32,
    pub deleted_end: u32,
    pub end: u32,
    pub program_start: u32,
    pub program_end: u32,
}

/// What is known of a step.
#[derive(Clone, Copy)]
pub(crate) struct KnownStep<'m> {
    pub code: StepCode<'m>,
    pub amount: u64,
}

/// Known steps in the order in which they were learned. Contracts see the list of them.
pub(crate) struct Memo {
    hash: KeyedHash,
    limits: MemoLimits,
    /// All keys.
    bytes: Vec<u8>,
    /// The lists of all codes.
    numbers: Vec<u32>,
    /// The programs of all codes.
    instructions: Vec<Instruction>,
    entries: Vec<Entry>,
    /// The slots of the table: in the slot of its hash, or in the next free one, the number of an entry. Their count is a power of two.
    slots: Vec<u32>,
}

impl Drop for Memo {
    fn drop(self) {
        let Self {
            hash: _,
            limits: _,
            bytes: _,
            numbers: _,
            instructions: _,
            entries: _,
            slots: _,
        } = self;
    }
}

impl Model for Memo {
    ghost use Rattle.std.specs.Prelude.{List, All, map, length};
    ghost use Rattle.text_judge.specs.Known.{Known, known_at, IsEntry};

    ghost Value = { List Known };

    ghost view = { λ m. map (known_at m.bytes.items m.numbers.items m.instructions.items) m.entries.items };

    ghost invariant = { λ m. All (IsEntry (length m.bytes.items) (length m.numbers.items) (length m.instructions.items)) m.entries.items };
}

impl Memo {
    /// No step is known. Takes no memory.
    pub(crate) fn new(alloc: Global, seed: Seed, limits: MemoLimits) -> Self
        ensures { result ≡ [] }
    {
        Memo {
            hash: KeyedHash {
                start: seed.hash_one(&0u64),
                by: seed.hash_one(&1u64),
            },
            limits,
            bytes: Vec::new(alloc),
            numbers: Vec::new(alloc),
            instructions: Vec::new(alloc),
            entries: Vec::new(alloc),
            slots: Vec::new(alloc),
        }
    }

    /// Forgets all steps and keeps the room.
    pub(crate) fn clear(&mut self)
        ensures { self.new ≡ [] }
    {
        self.entries.clear();
        self.slots.clear();
        self.bytes.clear();
        self.numbers.clear();
        self.instructions.clear();
    }

    /// The hash of a key. It is passed on from one call to the next, so that a key is hashed once, and no answer depends on it.
    #[inline(always)]
    pub(crate) fn hash_of(&self, key: &[u8]) -> u32 {
        (self.hash.of(key) & 0xFFFF_FFFF) as u32
    }

    /// The known step that a key with this hash spells.
    #[inline(always)]
    pub(crate) fn find(&self, hash: u32, key: &[u8]) -> Option<KnownStep<'_>>
        ensures { IfSome result (λ known. (number : ℕ)
            × (slice_get self.now number ≡ Some (record { key = key.now; code = code_shown known.code; amount = known.amount }))) }
    {
        match find_entry(hash, key, &self.slots, &self.entries, &self.bytes) {
            Some(number) => Some(known_step(
                &self.entries[number],
                &self.numbers,
                &self.instructions,
            )),
            None => None,
        }
    }

    /// Adds a step whose key has this hash, unless there is no room for it. Returns whether it did.
    pub(crate) fn add(
        &mut self,
        hash: u32,
        key: &[u8],
        code: StepCode<'_>,
        amount: u64,
    ) -> Result<bool, AllocError>
        ensures added { IfOk result (λ added. IsTrue added
            → self.new ≡ self.old ++ (record { key = key.now; code = code_shown code.entry; amount = amount }) ∷ []) }
        ensures not { IfOk result (λ added. added ≡ false → self.new ≡ self.old) }
        ensures err { OnErr result (self.new ≡ self.old) }
    {
        let lengths = Lengths {
            bytes: self.bytes.len(),
            numbers: self.numbers.len(),
            instructions: self.instructions.len(),
        };
        let Some(entry) = entry_for(hash, amount, key, code, lengths, self.limits) else {
            return Ok(false);
        };
        if self.entries.len() >= self.limits.codes {
            return Ok(false);
        }
        self.bytes.reserve(key.len())?;
        self.numbers.reserve((entry.end - entry.start) as usize)?;
        self.instructions.reserve(code.program.len())?;
        self.entries.reserve(1)?;
        make_slots(&mut self.slots, &self.entries)?;
        put(&mut self.slots, hash, self.entries.len() as u32);
        append(&mut self.bytes, key);
        append_code(&mut self.numbers, code);
        append(&mut self.instructions, code.program);
        self.entries.push_reserved(entry);
        Ok(true)
    }
}

/// The number of the entry with a key.
#[inline(always)]
fn find_entry(
    hash: u32,
    key: &[u8],
    slots: &[u32],
    entries: &[Entry],
    bytes: &[u8],
) -> Option<usize>
    requires { All (λ entry. (entry.key_start ≤ entry.key_end) × (entry.key_end ≤ length bytes.now)) entries.now }
    ensures within { IfSome result (λ number. number < length entries.now) }
    ensures key { IfSome result (λ number. (entry : Entry) → slice_get entries.now number ≡ Some entry
        → slice_range bytes.now entry.key_start entry.key_end ≡ key.now) }
{
    let mask = slots.len().wrapping_sub(1);
    let mut slot = hash as usize;
    for _ in 0..slots.len() {
        let number = *slots.get(slot & mask)? as usize;
        if number >= entries.len() {
            return None;
        }
        let entry = &entries[number];
        if entry.hash == hash && are_same(key_of(entry, bytes), key) {
            return Some(number);
        }
        slot = slot.wrapping_add(1);
    }
    None
}

/// The key of an entry.
#[inline(always)]
fn key_of<'m>(entry: &Entry, bytes: &'m [u8]) -> &'m [u8]
    requires { (entry.now.key_start ≤ entry.now.key_end) × (entry.now.key_end ≤ length bytes.now) }
    ensures { result.now ≡ slice_range bytes.now entry.now.key_start entry.now.key_end }
{
    &bytes[entry.key_start as usize..entry.key_end as usize]
}

/// What is known of the step of an entry.
#[inline(always)]
fn known_step<'m>(
    entry: &Entry,
    numbers: &'m [u32],
    instructions: &'m [Instruction],
) -> KnownStep<'m>
    requires { IsEntry entry.now.key_end (length numbers.now) (length instructions.now) entry.now }
    ensures code { (bytes : List ℕ) → code_shown result.code ≡ (known_at bytes numbers.now instructions.now entry.now).code }
    ensures amount { result.amount ≡ entry.now.amount }
{
    let needed_end = entry.needed_end as usize;
    let forbidden_end = entry.forbidden_end as usize;
    let deleted_end = entry.deleted_end as usize;
    KnownStep {
        code: StepCode {
            needed: &numbers[entry.start as usize..needed_end],
            forbidden: &numbers[needed_end..forbidden_end],
            deleted: &numbers[forbidden_end..deleted_end],
            added: &numbers[deleted_end..entry.end as usize],
            program: &instructions[entry.program_start as usize..entry.program_end as usize],
        },
        amount: entry.amount,
    }
}

/// How many bytes, numbers and instructions a table has.
#[derive(Clone, Copy)]
struct Lengths {
    bytes: usize,
    numbers: usize,
    instructions: usize,
}

/// The entry of a step that is to follow all that a table of these lengths has, unless it has no room there.
fn entry_for(
    hash: u32,
    amount: u64,
    key: &[u8],
    code: StepCode<'_>,
    lengths: Lengths,
    limits: MemoLimits,
) -> Option<Entry>
    ensures { IfSome result (λ entry. IsEntryFor entry lengths.bytes lengths.numbers lengths.instructions key.now (code_shown code.entry) amount) }
{
    let key_start = end_of(0, lengths.bytes, limits.key_bytes)?;
    let start = end_of(0, lengths.numbers, limits.numbers)?;
    let needed_end = end_of(start, code.needed.len(), limits.numbers)?;
    let forbidden_end = end_of(needed_end, code.forbidden.len(), limits.numbers)?;
    let deleted_end = end_of(forbidden_end, code.deleted.len(), limits.numbers)?;
    let program_start = end_of(0, lengths.instructions, limits.instructions)?;
    Some(Entry {
        hash,
        amount,
        key_start,
        key_end: end_of(key_start, key.len(), limits.key_bytes)?,
        start,
        needed_end,
        forbidden_end,
        deleted_end,
        end: end_of(deleted_end, code.added.len(), limits.numbers)?,
        program_start,
        program_end: end_of(program_start, code.program.len(), limits.instructions)?,
    })
}

/// Where `len` items that start at `start` end, unless that is more than `most`.
fn end_of(start: u32, len: usize, most: usize) -> Option<u32>
    requires { most < 2 ^ 32 }
    ensures { IfSome result (λ end. end ≡ start + len) }
{
    let start = start as usize;
    if start <= most && len <= most - start {
        Some((start + len) as u32)
    } else {
        None
    }
}

/// Makes the table large enough for one more entry: at least twice as many slots as entries.
fn make_slots(slots: &mut Vec<u32>, entries: &[Entry]) -> Result<(), AllocError>
    requires { length entries.now < 2 ^ 32 }
{
    if slots.len() / 2 > entries.len() {
        return Ok(());
    }
    let count = slots.len().saturating_mul(2).max(FIRST_SLOTS);
    slots.clear();
    slots.resize(count, EMPTY)?;
    for number in 0..entries.len() {
        put(slots, entries[number].hash, number as u32);
    }
    Ok(())
}

/// Puts the number of an entry into the first empty slot from that of its hash on.
fn put(slots: &mut [u32], hash: u32, number: u32) {
    let mask = slots.len().wrapping_sub(1);
    let mut slot = hash as usize;
    for _ in 0..slots.len() {
        let here = slot & mask;
        if here < slots.len() && slots[here] == EMPTY {
            slots[here] = number;
            return;
        }
        slot = slot.wrapping_add(1);
    }
}

/// Adds the numbers of a code to a list that has room for them.
fn append_code(numbers: &mut Vec<u32>, code: StepCode<'_>)
    requires { vec_len numbers.old + length (code_shown code).needed + length (code_shown code).forbidden
        + length (code_shown code).deleted + length (code_shown code).added ≤ vec_capacity numbers.old }
    ensures { numbers.new.items ≡ numbers.old.items ++ (code_shown code.entry).needed ++ (code_shown code.entry).forbidden
        ++ (code_shown code.entry).deleted ++ (code_shown code.entry).added }
{
    append(numbers, code.needed);
    append(numbers, code.forbidden);
    append(numbers, code.deleted);
    append(numbers, code.added);
}

/// Adds items to a list that has room for them.
fn append<T: Copy>(list: &mut Vec<T>, more: &[T])
    requires { vec_len list.old + length more.now ≤ vec_capacity list.old }
    ensures items { list.new.items ≡ list.old.items ++ more.now }
    ensures len { vec_len list.new ≡ vec_len list.old + length more.now }
    ensures capacity { vec_capacity list.old ≤ vec_capacity list.new }
{
    match list.extend_from_slice(more) {
        Ok(()) => {}
        Err(_) => unreachable!(),
    }
}
