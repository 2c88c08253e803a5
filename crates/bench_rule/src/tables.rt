//! The table of a bench.
ghost use Rattle.std.specs.Prelude.{◌≡◌, ◌+◌, [], IfOk, replicate};
ghost use Rattle.bench_rule.specs.declared.contents.Item.TheVariants.{Nothing};
ghost use Rattle.bench_rule.specs.Views.{first_view};

use crate::contents::Item;
use crate::rule::{BenchRule, BenchSeat};
use crate::views::{Setting, View};
use atomic_table::Table;
use std::alloc::{AllocError, Global};

/// The words and slots of a bench, and who owns their memory.
pub type BenchTable = Table<Item, View, Setting, BenchRule, Global>;

/// A new bench, and the seat of its owner. Takes the memory for all words and slots.
pub fn make_table(alloc: Global, setting: &Setting) -> Result<(BenchTable, BenchSeat), AllocError>
    ensures table { IfOk result (λ made. (made.0.shared.key ≡ setting.now) × (made.0.shared.table_id.slots ≡ setting.now.slots) × (made.0.shared.table_id.words ≡ setting.now.slots + 1)) }
    ensures seat { IfOk result (λ made. (made.1.table_id ≡ made.0.shared.table_id) × (made.1.id ≡ 0) × (made.1.me ≡ (first_view setting.now, []))) }
{
    let count = setting.slots as usize;
    free_a_list_of(alloc, count)?;
    let words = Vec::from_elem(alloc, 0u64, count + 1)?;
    let slots = empty_slots(alloc, count)?;
    match Table::new(alloc, &words, slots, setting) {
        Ok(made) => Ok(made),
        Err(_) => Err(AllocError),
    }
}

/// So many slots with nothing in them.
fn empty_slots(alloc: Global, count: usize) -> Result<Vec<Item>, AllocError>
    ensures { IfOk result (λ slots. slots.items ≡ replicate count Nothing) }
{
    let mut slots = Vec::with_capacity(alloc, count)?;
    for _ in 0..count {
        slots.push(Item::Nothing)?;
    }
    Ok(slots)
}

/// Takes the memory of a list of so many slots, and frees it untouched.
///
/// A table is made of a list of its slots, which is freed then. The allocator of the C library asks the system for each list as large as that, and gives it
/// back as soon as it is freed, so that the same bytes are fresh pages for whoever asks for them next. Once it has seen such a list freed, it keeps what
/// is freed for those who ask later: first the list of the slots, then what is found of the plans.
fn free_a_list_of(alloc: Global, slots: usize) -> Result<(), AllocError> {
    drop(Vec::<Item>::with_capacity(alloc, slots)?);
    Ok(())
}
