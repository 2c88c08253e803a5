//! The bench that threads share.
ghost use Rattle.std.specs.Prelude.{◌≡◌, ◌≤◌, ◌+◌, IfOk};
ghost use Rattle.bench_rule.specs.Views.{first_view};

use crate::Owner;
use bench_rule::{BenchTable, BenchWords, Setting, make_table};
use plan_cost::CostedTask;
use std::alloc::{AllocError, Global};
use std::marker::Model;
use std::snapshot::Snapshot;

/// The bench that threads share: its words and slots. Contracts see which bench it is, and what it was made for.
#[derive(Drop)]
pub struct Bench {
    table: BenchTable,
    slots: u32,
}

impl Model for Bench {
    ghost use Rattle.std.specs.Prelude.{◌≡◌, ◌≤◌, ◌+◌};
    ghost use Rattle.judge_bench.specs.Seats.{BenchFacts};

    ghost Value = { BenchFacts };

    ghost use Rattle.formulas.specs.contracts.effect.Effect as effect;
    ghost use Rattle.formulas.specs.contracts.formula.Formula as formula;
    ghost use Rattle.std.specs.Coded.{codes};

    ghost coded = { Prim.hlevel (codes, formula.the_row.coded, effect.the_row.coded) };

    ghost view = { λ bench. record { table = bench.table.shared.table_id; setting = bench.table.shared.key } };

    ghost invariant = { λ bench. (bench.table.shared.table_id.words ≡ bench.table.shared.table_id.slots + 1) × (bench.table.shared.table_id.slots ≡ bench.slots) × (bench.table.shared.key.slots ≡ bench.slots) × (bench.slots ≤ 65536) };
}

impl Bench {
    /// A new bench for `planners` planners and at most `slots` plans, and the seat of its owner. Takes all the memory that the calls at the
    /// bench need: a word and a slot for each plan, and what the owner keeps about each plan and each planner.
    pub fn make(
        alloc: Global,
        task: &CostedTask,
        planners: u32,
        slots: u32,
    ) -> Result<(Bench, Owner), AllocError>
        requires planners { planners ≤ 64 }
        requires slots { slots ≤ 65536 }
        ensures bench { IfOk result (λ made. (made.0.setting.task.value ≡ task.now) × (made.0.setting.planners ≡ planners) × (made.0.setting.slots ≡ slots)) }
        ensures owner { IfOk result (λ made. (made.1.table ≡ made.0.table) × (made.1.view ≡ first_view made.0.setting)) }
    {
        let setting = Setting {
            task: Snapshot::of(task),
            planners,
            slots,
        };
        let (table, seat) = make_table(alloc, &setting)?;
        let owner = Owner::at(alloc, seat, planners, slots)?;
        Ok((Bench { table, slots }, owner))
    }

    /// The words and slots.
    pub(crate) fn words(&self) -> &BenchWords
        ensures { (result.now.table_id ≡ self.now.table) × (result.now.key ≡ self.now.setting) × (result.now.table_id.words ≡ result.now.table_id.slots + 1) × (result.now.key.slots ≡ result.now.table_id.slots) × (result.now.table_id.slots ≤ 65536) }
    {
        &self.table.shared
    }

    /// How many slots there are, one for each plan that can be accepted.
    pub fn slots(&self) -> u32
        ensures { (result ≡ self.now.setting.slots) × (result ≡ self.now.table.slots) × (result ≤ 65536) }
    {
        self.slots
    }
}
