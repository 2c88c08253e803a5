//! The types of a task and their order.
//!
//! Types form a tree below `object` (PDDL 2.1, Fox and Long 2003, section 2). A `TypeList` holds for each type the number of its parent.
//! A reader pushes the parents in the order of the types' numbers, and then indexes the list, so that one read of a table says
//! whether one type is below another. A list that was not indexed gives the same answer by a walk.
ghost use Rattle.std.specs.Prelude.{◌≡◌, ◌+◌, ◌*◌, ◌<◌, ◌≤◌, ◌||◌, ◌&&◌, ◌↔◌, ◌≢◌, ℕ, List, [], ◌∷◌, ◌++◌, length, slice_index, All, IsTrue, true, nat_lt, IfOk, OnOk, OnErr, IfErr};
ghost use Rattle.std.specs.List.{list_any};
ghost use Rattle.bit_rows.specs.Rows.{row_has};
ghost use Rattle.strips_task.specs.Types.{is_within, is_below, fits};
ghost use Rattle.strips_task.specs.TypeTable.{IsTable, MayHaveTable, AreJoined};

use bit_rows::{WORD_BITS, empty_row, has_bit, set_bit};
use std::alloc::{AllocError, AllocFailed, Global};
use std::marker::Model;

/// The words of 64 bits in a row of the table.
const ROW_WORDS: usize = 17;

/// The bits in a row, and so the most types for which there is a table.
const ROW_BITS: usize = 1088;

/// For this many types or fewer, testing each pair takes less time than joining rows.
const FEW: usize = 2;

/// The parents of the types, by number; number 0 is `object`. Contracts see the list of the parents' numbers.
pub struct TypeList {
    parents: Vec<u16>,
    table: Vec<u64>,
}

impl Drop for TypeList {
    fn drop(self) {
        let Self {
            parents: _,
            table: _,
        } = self;
    }
}

impl Model for TypeList {
    ghost use Rattle.std.specs.Prelude.{List, ℕ};
    ghost use Rattle.strips_task.specs.TypeTable.{MayHaveTable};

    ghost Value = { List ℕ };

    ghost view = { λ s. s.parents.items };

    ghost invariant = { λ s. MayHaveTable s.parents.items s.table.items };
}

impl TypeList {
    /// The empty list. Takes no memory.
    pub fn new(alloc: Global) -> Self
        ensures { result ≡ [] }
    {
        TypeList {
            parents: Vec::new(alloc),
            table: Vec::new(alloc),
        }
    }

    /// Adds the parent of the next type. The parent may have a greater number. If memory runs out, the number is given back.
    pub fn push(&mut self, parent: u16) -> Result<(), AllocFailed<u16>>
        ensures ok { OnOk result (self.new ≡ self.old ++ parent ∷ []) }
        ensures err { OnErr result (self.new ≡ self.old) }
        ensures value_returned { IfErr result (λ failed. failed.value ≡ parent) }
    {
        self.table.clear();
        self.parents.push(parent)
    }

    /// How many types there are.
    pub fn len(&self) -> usize
        ensures { result ≡ length self.now }
    {
        self.parents.len()
    }

    /// The number of a type's parent.
    pub fn get(&self, number: usize) -> u16
        requires { number < length self.now }
        ensures { result ≡ slice_index self.now number }
    {
        self.parents[number]
    }

    /// Makes the table that answers `is_below` and `are_below` without a walk: 136 bytes for each type, with a bit for each type below it.
    /// A list of more than 1,088 types, which no task has, gets no table.
    pub fn index(&mut self) -> Result<(), AllocError>
        requires { All (λ parent. parent < length self.old) self.old }
        ensures { self.new ≡ self.old }
    {
        if self.parents.len() <= ROW_BITS {
            self.table = table_of(*self.parents.allocator(), self.parents.as_slice())?;
        }
        Ok(())
    }

    /// Whether a type is below another: they are the same, or the other is the parent of the first, or its parent's parent, and so on. A
    /// number that is no type counts as a type right below `object`. Takes one read of the table once the list is indexed, and otherwise a walk
    /// of at most as many steps as there are types.
    pub fn is_below(&self, sub: u16, sup: u16) -> bool
        ensures { result ≡ is_below self.now sub sup }
    {
        is_below(self.parents.as_slice(), self.table.as_slice(), sub, sup)
    }

    /// Whether each of the first types is below one of the second. One or two types, or any number against a single one, are tested pair by
    /// pair, and so are all types of a list without a table. Otherwise the rows of the second types are joined, 17 words each, or one word if there
    /// are at most 64 types, and each of the first takes one test. So the time grows with the sum of the two numbers, and not with their product.
    /// No memory is taken.
    pub fn are_below(&self, subs: &[u16], sups: &[u16]) -> bool
        ensures { result ≡ fits self.now subs.now sups.now }
    {
        let parents = self.parents.as_slice();
        let table = self.table.as_slice();
        if subs.len() <= FEW || sups.len() <= 1 || table.is_empty() {
            return are_below_by_pairs(parents, table, subs, sups);
        }
        if parents.len() <= WORD_BITS {
            let joined: [u64; 1] = joined_rows(parents.len(), table, sups);
            return are_below_joined(parents, table, &joined, subs, sups);
        }
        let joined: [u64; ROW_WORDS] = joined_rows(parents.len(), table, sups);
        are_below_joined(parents, table, &joined, subs, sups)
    }
}

/// Whether a type is below another. A type is below itself, which reads no table. Inlined, since it is called for each pair of two short lists.
#[inline(always)]
fn is_below(parents: &[u16], table: &[u64], sub: u16, sup: u16) -> bool
    requires { MayHaveTable parents.now table.now }
    ensures { result ≡ is_below parents.now sub sup }
{
    if sub == sup {
        return true;
    }
    let sub = usize::from(sub);
    let sup = usize::from(sup);
    if sub < parents.len() && sup < parents.len() && !table.is_empty() {
        has_bit(table, sup * ROW_BITS + sub)
    } else {
        stands_above(parents, sub, sup)
    }
}

/// Whether a type is below one of others.
fn is_below_some(parents: &[u16], table: &[u64], sub: u16, sups: &[u16]) -> bool
    requires { MayHaveTable parents.now table.now }
    ensures { result ≡ list_any (is_below parents.now sub) sups.now }
{
    sups.iter().any(|sup| is_below(parents, table, sub, *sup))
}

/// Whether each of the first types is below one of the second, tested pair by pair.
#[tactic(auto, unfolding(crate::specs::Types::fits))]
fn are_below_by_pairs(parents: &[u16], table: &[u64], subs: &[u16], sups: &[u16]) -> bool
    requires { MayHaveTable parents.now table.now }
    ensures { result ≡ fits parents.now subs.now sups.now }
{
    subs.iter()
        .all(|sub| is_below_some(parents, table, *sub, sups))
}

/// Whether each of the first types is below one of the second, whose rows are joined.
#[tactic(auto, unfolding(crate::specs::Types::fits))]
fn are_below_joined(
    parents: &[u16],
    table: &[u64],
    joined: &[u64],
    subs: &[u16],
    sups: &[u16],
) -> bool
    requires { AreJoined parents.now table.now joined.now sups.now }
    ensures { result ≡ fits parents.now subs.now sups.now }
{
    subs.iter()
        .all(|sub| is_below_joined(parents, table, joined, *sub, sups))
}

/// Whether a type is below one of others, whose rows are joined. A number that is no type has no bit, and is tested pair by pair.
#[inline(always)]
fn is_below_joined(parents: &[u16], table: &[u64], joined: &[u64], sub: u16, sups: &[u16]) -> bool
    requires { AreJoined parents.now table.now joined.now sups.now }
    ensures { result ≡ list_any (is_below parents.now sub) sups.now }
{
    let number = usize::from(sub);
    if number < parents.len() && has_bit(joined, number) {
        return true;
    }
    is_below_some(parents, table, sub, sups)
}

/// The first words of the rows of some types, joined: the bits that are set in at least one of them.
fn joined_rows<const WORDS: usize>(count: usize, table: &[u64], sups: &[u16]) -> [u64; WORDS]
    requires few { WORDS ≤ 17 }
    requires room { 17 * count ≤ length table.now }
    ensures { (k : ℕ) → k < 64 * WORDS → row_has result k ≡ list_any (λ sup. nat_lt sup count && row_has table.now (sup * 1088 + k)) sups.now }
{
    let mut joined = [0; WORDS];
    'rows: for sup in sups {
        join_row(&mut joined, count, table, usize::from(*sup));
    }
    joined
}

/// Adds the bits of a type's row, if it is the number of a type.
#[inline(always)]
fn join_row<const WORDS: usize>(joined: &mut [u64; WORDS], count: usize, table: &[u64], sup: usize)
    requires few { WORDS ≤ 17 }
    requires room { 17 * count ≤ length table.now }
    ensures { (k : ℕ) → k < 64 * WORDS → row_has joined.new k ≡ (row_has joined.old k || (nat_lt sup count && row_has table.now (sup * 1088 + k))) }
{
    if sup < count {
        add_words(joined, table, sup * ROW_WORDS);
    }
}

/// Adds the bits of the words of the table from one on. Their number is constant, so that the compiler unrolls the loop and keeps them in registers
/// while rows are joined.
#[inline(always)]
fn add_words<const WORDS: usize>(joined: &mut [u64; WORDS], table: &[u64], first: usize)
    requires { first + WORDS ≤ length table.now }
    ensures { (k : ℕ) → k < 64 * WORDS → row_has joined.new k ≡ (row_has joined.old k || row_has table.now (first * 64 + k)) }
{
    'words: for index in 0..WORDS {
        joined[index] |= table[first + index];
    }
}

/// The table of all types.
fn table_of(alloc: Global, parents: &[u16]) -> Result<Vec<u64>, AllocError>
    requires few { length parents.now ≤ 1088 }
    requires known { All (λ parent. parent < length parents.now) parents.now }
    ensures { IfOk result (λ table. IsTable parents.now table.items) }
{
    let mut table = empty_row(alloc, parents.len() * ROW_BITS)?;
    'types: for number in 0..parents.len() {
        mark_above(parents, number, &mut table);
    }
    Ok(table)
}

/// Sets the bit of a type in the row of each type above it.
fn mark_above(parents: &[u16], number: usize, table: &mut [u64])
    requires few { length parents.now ≤ 1088 }
    requires known { number < length parents.now }
    requires parents_known { All (λ parent. parent < length parents.now) parents.now }
    requires room { 17 * length parents.now ≤ length table.old }
    ensures marked { (sup : ℕ) → row_has table.new (sup * 1088 + number) ≡ (row_has table.old (sup * 1088 + number) || is_within parents.now (length parents.now) number sup) }
    ensures others { (sub sup : ℕ) → sub < 1088 → sub ≢ number → row_has table.new (sup * 1088 + sub) ≡ row_has table.old (sup * 1088 + sub) }
{
    let mut at = number;
    'up: for _ in 0..parents.len() {
        set_bit(table, at * ROW_BITS + number);
        at = usize::from(parents[at]);
    }
    set_bit(table, at * ROW_BITS + number);
}

/// Whether a walk from one type over the parents meets the other.
fn stands_above(parents: &[u16], sub: usize, sup: usize) -> bool
    ensures { result ≡ is_within parents.now (length parents.now) sub sup }
{
    let mut at = sub;
    'up: for _ in 0..parents.len() {
        if at == sup {
            return true;
        }
        at = parent_of(parents, at);
    }
    at == sup
}

/// The parent of a type, or `object` for a number that is no type.
fn parent_of(parents: &[u16], number: usize) -> usize
    ensures { result ≡ slice_index parents.now number }
{
    match parents.get(number) {
        Some(parent) => usize::from(*parent),
        None => 0,
    }
}
