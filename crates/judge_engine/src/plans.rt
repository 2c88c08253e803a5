//! The plans of the planners' files.
//!
//! A file is cut into its parts, and each part is a plan. Of each only the range of its bytes is kept. A plan is made when it is handed in: it is kept as
//! its text, a range of the file's bytes, which are not copied, and it is read when it is judged.
ghost use Rattle.std.specs.Global.{Vec as CutList};
ghost use Rattle.std.specs.Prelude.{◌≡◌, ◌≤◌, ◌<◌, ◌+◌, ◌++◌, ◌∷◌, [], ℕ, Option, get_or, length, map, IfOk, OnOk, MatchBool, MatchOption};
ghost use Rattle.plan_text.specs.Bundle.{parts};
ghost use Rattle.judge_engine.specs.Answer.{plan_count, most_plans};
ghost use Rattle.judge_engine.specs.Plans.{AreCutsOf, AreCutsOfFile, IsCutOf, bytes_of, handed_in, plan_of_cut, plan_of_part, plans_of_cuts, plans_of_files};

use crate::bundle::Bundle;
use crate::engine::MOST_PLANS;
use intake_rules::SubmittedPlan;
use judge_bench::{Intake, Submission};
use plan_text::{PartEnd, part_from};
use rayon::prelude::*;
use std::alloc::{AllocError, Global};
use std::marker::Model;
use std::thread::Threads;

/// A plan of a planner's file, as the range of its bytes.
#[derive(Clone, Copy)]
pub(crate) struct Cut {
    /// Whose plan it is, counted from 0.
    pub(crate) planner: u32,
    start: u32,
    end: u32,
}

impl Cut {
    /// The plan of this range. Its text is not read yet. Copies nothing; the only error is that the file's bytes have too many owners.
    pub(crate) fn plan(self, bundles: &[Bundle]) -> Result<SubmittedPlan, AllocError>
        requires { IsCutOf bundles.now self }
        ensures { IfOk result (λ plan. plan ≡ (plan_of_cut bundles.now self).plan) }
    {
        bundles[self.planner as usize].plan(self.start, self.end)
    }
}

/// The plans of some ranges, in order, all handed in as plans of one planner: their findings are then in the same order. Contracts see the plans that
/// are still to come.
#[derive(Drop)]
pub(crate) struct CutPlans<'b> {
    bundles: &'b [Bundle],
    cuts: &'b [Cut],
    next: usize,
}

impl<'b> Model for CutPlans<'b> {
    ghost use Rattle.std.specs.Prelude.{◌≤◌, List, drop, length};
    ghost use Rattle.judge_bench.specs.Submissions.{SubmissionParts};
    ghost use Rattle.judge_engine.specs.Plans.{AreCutsOf, handed_in};

    ghost Value = { List SubmissionParts };

    ghost view = { λ plans. handed_in plans.bundles.now (drop plans.next plans.cuts.now) };

    ghost invariant = { λ plans. (plans.next ≤ length plans.cuts.now) × AreCutsOf plans.bundles.now plans.cuts.now };
}

impl<'b> CutPlans<'b> {
    /// The plans of these ranges. Takes no memory.
    pub(crate) fn new(bundles: &'b [Bundle], cuts: &'b [Cut]) -> CutPlans<'b>
        requires { AreCutsOf bundles.now cuts.now }
        ensures { result ≡ handed_in bundles.now cuts.now }
    {
        CutPlans {
            bundles,
            cuts,
            next: 0,
        }
    }
}

impl<'b> Intake for CutPlans<'b> {
    ghost to_come = { λ plans. plans };

    fn next(&mut self) -> Result<Option<Submission>, AllocError> {
        if self.next == self.cuts.len() {
            return Ok(None);
        }
        let plan = self.cuts[self.next].plan(self.bundles)?;
        self.next += 1;
        Ok(Some(Submission { planner: 0, plan }))
    }
}

/// What [`cut_plans`] gives, by at most `threads` threads: each cuts whole files.
///
/// Takes twelve bytes of memory more for each plan while the plans of the files are put together.
pub(crate) fn cut_side_by_side<R: Threads + Sync>(
    rt: &R,
    alloc: Global,
    bundles: &[Bundle],
    threads: u32,
) -> Result<Option<Vec<Cut>>, AllocError>
    requires few { length bundles.now ≤ 64 }
    requires threads { 1 ≤ threads }
    ensures { IfOk result (λ found. MatchOption found (most_plans < plan_count bundles.now)
        (λ cuts. AreCutsOf bundles.now cuts.items × (plans_of_cuts bundles.now cuts.items ≡ plans_of_files 0 bundles.now) × (plan_count bundles.now ≤ most_plans))) }
{
    let piece = bundles.len().div_ceil(threads as usize);
    let files = (0..bundles.len())
        .into_par_iter()
        .with_min_len(piece)
        .map(
            |planner: usize| -> Result<Option<Vec<Cut>>, AllocError>
                requires { (planner < length bundles.now) × (planner < 64) }
                ensures { IfOk result (AreCutsOfFile bundles.entry.now planner) }
            { cut_file(alloc, bundles, planner as u32) },
        )
        .collect::<Result<Vec<Option<Vec<Cut>>>, AllocError>>(rt, alloc)??;
    joined(alloc, bundles, files.as_slice())
}

/// The plans of a planner's file, unless there are too many.
fn cut_file(alloc: Global, bundles: &[Bundle], planner: u32) -> Result<Option<Vec<Cut>>, AllocError>
    requires { planner < length bundles.now }
    ensures { IfOk result (AreCutsOfFile bundles.now planner) }
{
    let mut cuts = Vec::new(alloc);
    if push_parts(&mut cuts, bundles, planner)? {
        return Ok(Some(cuts));
    }
    Ok(None)
}

/// The plans of all files, put together in their order, unless there are too many.
fn joined(
    alloc: Global,
    bundles: &[Bundle],
    files: &[Option<Vec<Cut>>],
) -> Result<Option<Vec<Cut>>, AllocError>
    requires count { length files.now ≡ length bundles.now }
    requires each { (planner : ℕ) (file : Option (CutList Cut)) → planner < length bundles.now → AreCutsOfFile bundles.now planner (get_or files.now planner file) }
    ensures { IfOk result (λ found. MatchOption found (most_plans < plan_count bundles.now)
        (λ cuts. AreCutsOf bundles.now cuts.items × (plans_of_cuts bundles.now cuts.items ≡ plans_of_files 0 bundles.now) × (plan_count bundles.now ≤ most_plans))) }
{
    let mut cuts = Vec::new(alloc);
    for planner in 0..bundles.len() {
        let Some(more) = &files[planner] else {
            return Ok(None);
        };
        if more.len() > MOST_PLANS - cuts.len() {
            return Ok(None);
        }
        cuts.extend_from_slice(more.as_slice())?;
    }
    Ok(Some(cuts))
}

/// The plans of all files, in the order of the files and of the parts of each, unless there are too many.
///
/// Goes once over the bytes, and takes twelve bytes of memory for each plan.
pub(crate) fn cut_plans(alloc: Global, bundles: &[Bundle]) -> Result<Option<Vec<Cut>>, AllocError>
    requires { length bundles.now ≤ 64 }
    ensures { IfOk result (λ found. MatchOption found (most_plans < plan_count bundles.now)
        (λ cuts. AreCutsOf bundles.now cuts.items × (plans_of_cuts bundles.now cuts.items ≡ plans_of_files 0 bundles.now) × (plan_count bundles.now ≤ most_plans))) }
{
    let mut cuts = Vec::new(alloc);
    for planner in 0..bundles.len() {
        if !push_parts(&mut cuts, bundles, planner as u32)? {
            return Ok(None);
        }
    }
    Ok(Some(cuts))
}

/// Adds the plans of a planner's file, unless there would be too many; then only some are added.
fn push_parts(cuts: &mut Vec<Cut>, bundles: &[Bundle], planner: u32) -> Result<bool, AllocError>
    requires known { planner < length bundles.now }
    requires few { length cuts.old.items ≤ most_plans }
    requires within { AreCutsOf bundles.now cuts.old.items }
    ensures within { OnOk result (AreCutsOf bundles.now cuts.new.items) }
    ensures plans { IfOk result (λ fits. MatchBool fits
        ((plans_of_cuts bundles.now cuts.new.items ≡ plans_of_cuts bundles.now cuts.old.items ++ map (plan_of_part planner) (parts (bytes_of bundles.now planner))) × (length cuts.new.items ≤ most_plans))
        (most_plans < length cuts.old.items + length (parts (bytes_of bundles.now planner)))) }
{
    let bytes = bundles[planner as usize].bytes();
    let mut start = 0;
    'parts: loop {
        let PartEnd { end, next } = part_from(bytes, start);
        if cuts.len() == MOST_PLANS {
            return Ok(false);
        }
        push_cut(cuts, planner, start, end)?;
        match next {
            Some(offset) => start = offset,
            None => return Ok(true),
        }
    }
}

/// Adds a plan, if its range can be kept in 32 bits, as it can in every file that is not too large.
fn push_cut(cuts: &mut Vec<Cut>, planner: u32, start: usize, end: usize) -> Result<(), AllocError>
    requires { start ≤ end }
    ensures { OnOk result (cuts.new.items ≡ cuts.old.items ++ record { planner = planner; start = start; end = end } ∷ []) }
{
    if end > u32::MAX as usize {
        return Err(AllocError);
    }
    cuts.push(Cut {
        planner,
        start: start as u32,
        end: end as u32,
    })?;
    Ok(())
}
