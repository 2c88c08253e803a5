//! What each step says about the seat that takes it. These types are only for proofs.
ghost use Rattle.bench_rule.specs.Plays.{lift_tells, post_tells, take_tells, take_own_tells, bring_tells, finish_tells, hand_back_tells, emit_tells, close_tells, look_tells, shut_tells, look_at_shut_tells};

use crate::contents::Item;
use crate::views::View;
use atomic_table::Play;
use std::marker::{Brand, PhantomData};

/// The load before a post.
pub(crate) struct Lift;

impl Play<Item, View> for Lift {
    ghost then = { lift_tells };
}

/// The store that accepts a job.
pub(crate) struct Post;

impl Play<Item, View> for Post {
    ghost then = { post_tells };
}

/// The compare-exchange by which a worker takes a job.
pub(crate) struct Take;

impl Play<Item, View> for Take {
    ghost then = { take_tells };
}

/// The compare-exchange by which the owner takes a job.
pub(crate) struct TakeOwn;

impl Play<Item, View> for TakeOwn {
    ghost then = { take_own_tells };
}

/// The load that moves the slot of a held job to the front of the slots that the seat carries.
pub(crate) struct Bring;

impl Play<Item, View> for Bring {
    ghost then = { bring_tells };
}

/// The store that finishes a job.
pub(crate) struct Finish;

impl Play<Item, View> for Finish {
    ghost then = { finish_tells };
}

/// The store that hands a job back.
pub(crate) struct HandBack;

impl Play<Item, View> for HandBack {
    ghost then = { hand_back_tells };
}

/// The compare-exchange that emits a finding.
pub(crate) struct Emit;

impl Play<Item, View> for Emit {
    ghost then = { emit_tells };
}

/// Which planner is closed. Only for proofs.
pub(crate) trait Which {
    ghost use Rattle.std.specs.Prelude.{ℕ};

    ghost planner: { ℕ };
}

impl Which for Brand {
    ghost planner = { 0 };
}

/// The load that closes a planner.
pub(crate) struct Close<W> {
    marker: PhantomData<W>,
}

impl<W: Which> Play<Item, View> for Close<W> {
    ghost then = { close_tells W.planner };
}

/// The load by which a worker checks whether a slot waits.
pub(crate) struct Look;

impl Play<Item, View> for Look {
    ghost then = { look_tells };
}

/// The store that shuts the bench.
pub(crate) struct Shut;

impl Play<Item, View> for Shut {
    ghost then = { shut_tells };
}

/// The load that checks whether the bench is shut.
pub(crate) struct LookAtShut;

impl Play<Item, View> for LookAtShut {
    ghost then = { look_at_shut_tells };
}
