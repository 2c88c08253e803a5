//! The rule of the bench, and its types.
use crate::contents::Item;
use crate::views::{Setting, View};
use atomic_table::{Seat, Shared, TableRule};

/// The rule that words, slots and views keep between any two steps.
pub struct BenchRule;

impl TableRule<Item, View, Setting> for BenchRule {
    ghost use Rattle.bench_rule.specs.Sound.{Sound};
    ghost use Rattle.bench_rule.specs.Views.{first_view};

    ghost holds = { Sound };

    ghost first = { first_view };
}

/// The words and slots of a bench, as all threads share them.
pub type BenchWords = Shared<Item, View, Setting, BenchRule>;

/// A seat at a bench.
pub type BenchSeat = Seat<Item, View>;
