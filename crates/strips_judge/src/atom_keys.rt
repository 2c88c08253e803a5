//! Keys of the atoms that patterns stand for.
ghost use Rattle.std.specs.Prelude.{◌<◌, length, IfSome, IfNone};
ghost use Rattle.formulas.specs.Meaning.{atom_of};
ghost use Rattle.formulas.specs.Within.{IsPatternWithin};
ghost use Rattle.strips_task.specs.AtomKeys.{IsKeyOf};

use crate::grounding::object_of;
use strips_task::{AtomKey, Pattern};

/// The key of the atom that a pattern stands for, if it has at most two terms, as most have.
#[inline(always)]
pub(crate) fn key_of_short(pattern: &Pattern, objects: &[u16], bound: &[u16]) -> Option<AtomKey>
    requires { IsPatternWithin (length objects.now) (length bound.now) pattern.now }
    ensures key { IfSome result (IsKeyOf (atom_of objects.now bound.now pattern.now)) }
    ensures longer { IfNone result (2 < length pattern.now.terms) }
{
    let pred = pattern.pred;
    match pattern.terms.as_slice() {
        [] => Some(AtomKey::new(pred, 0, 0, 0, 0, 0)),
        [a] => Some(AtomKey::new(pred, 1, object_of(*a, objects, bound), 0, 0, 0)),
        [a, b] => Some(AtomKey::new(
            pred,
            2,
            object_of(*a, objects, bound),
            object_of(*b, objects, bound),
            0,
            0,
        )),
        _ => None,
    }
}

/// The key of the atom that a pattern of more than two terms stands for, unless it has more than four.
pub(crate) fn key_of_longer(pattern: &Pattern, objects: &[u16], bound: &[u16]) -> Option<AtomKey>
    requires within { IsPatternWithin (length objects.now) (length bound.now) pattern.now }
    requires longer { 2 < length pattern.now.terms }
    ensures key { IfSome result (IsKeyOf (atom_of objects.now bound.now pattern.now)) }
    ensures many { IfNone result (4 < length (atom_of objects.now bound.now pattern.now).args) }
{
    let pred = pattern.pred;
    match pattern.terms.as_slice() {
        [a, b, c] => Some(AtomKey::new(
            pred,
            3,
            object_of(*a, objects, bound),
            object_of(*b, objects, bound),
            object_of(*c, objects, bound),
            0,
        )),
        [a, b, c, d] => Some(AtomKey::new(
            pred,
            4,
            object_of(*a, objects, bound),
            object_of(*b, objects, bound),
            object_of(*c, objects, bound),
            object_of(*d, objects, bound),
        )),
        _ => None,
    }
}
