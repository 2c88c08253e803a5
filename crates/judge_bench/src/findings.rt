//! The findings of the plans of each planner.
ghost use Rattle.std.specs.Prelude.{◌≡◌, ◌<◌, [], List, length, slice_index_or, IfOk, OnOk, Some, slice_get};
ghost use Rattle.judge_bench.specs.Findings.{kept, nothing_kept};

use intake_rules::Finding;
use std::alloc::{AllocError, Global};
use std::marker::Model;
use strips_judge::Seq;

/// For each planner, the findings of its plans, in the order in which the plans were handed in. Contracts see a list of lists.
#[derive(Drop)]
pub struct Findings {
    lists: Vec<Seq<Finding>>,
}

impl Model for Findings {
    ghost use Rattle.std.specs.Prelude.{List};
    ghost use Rattle.intake_rules.specs.declared.finding.Finding.{Finding};

    ghost Value = { List (List Finding) };

    ghost use Rattle.formulas.specs.contracts.effect.Effect as effect;
    ghost use Rattle.formulas.specs.contracts.formula.Formula as formula;
    ghost use Rattle.std.specs.Coded.{codes};

    ghost coded = { Prim.hlevel (codes, formula.the_row.coded, effect.the_row.coded) };

    ghost view = { λ findings. findings.lists.items };
}

impl Findings {
    /// No findings, for `planners` planners.
    pub(crate) fn new(alloc: Global, planners: u32) -> Result<Findings, AllocError>
        ensures { IfOk result (λ findings. findings ≡ nothing_kept planners) }
    {
        let mut lists = Vec::with_capacity(alloc, planners as usize)?;
        for _ in 0..planners {
            lists.push(Seq::new(alloc))?;
        }
        Ok(Findings { lists })
    }

    /// Keeps a finding after those of its planner.
    pub(crate) fn push(&mut self, finding: Finding) -> Result<(), AllocError>
        requires { finding.job.planner < length self.old }
        ensures { OnOk result (self.new ≡ kept self.old finding) }
    {
        let list = &mut self.lists[finding.job.planner as usize];
        list.push(finding)?;
        Ok(())
    }

    /// How many planners there are. Takes no memory.
    pub fn planners(&self) -> usize
        ensures { result ≡ length self.now }
    {
        self.lists.len()
    }

    /// How many plans of a planner were judged. Takes no memory.
    pub fn plans(&self, planner: usize) -> usize
        requires { planner < length self.now }
        ensures { result ≡ length (slice_index_or self.now planner []) }
    {
        self.lists[planner].len()
    }

    /// The finding of a planner's plan; both are counted from 0. Takes no memory.
    pub fn get(&self, planner: usize, plan: usize) -> &Finding
        requires planner { planner < length self.now }
        requires plan { plan < length (slice_index_or self.now planner []) }
        ensures { slice_get (slice_index_or self.now planner []) plan ≡ Some result.now }
    {
        self.lists[planner].get(plan)
    }
}
