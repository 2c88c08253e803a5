//! What a domain or a problem could have where it has something else.

use crate::constructs::Construct;
use crate::forms::form_hint;
use crate::hints::push_did_you_mean;
use crate::keywords::{PART_HINT, is_part, nearest_keyword};
use crate::literals::Place;
use crate::page::Page;
use crate::scene::Scene;

/// Adds what may appear where the fault is.
pub(crate) fn push_expected_hints(page: &mut Page, scene: &mut Scene<'_>) {
    if scene.is_swapped() {
        page.help_line("are the files of --domain and --problem swapped?");
        return;
    }
    let near = nearest_keyword(page.alloc(), scene);
    match page.found(near) {
        Some(name) => push_did_you_mean(page, name),
        None => page.help_line(expected_hint(scene)),
    }
}

/// What may appear where the fault is.
fn expected_hint(scene: &Scene<'_>) -> &'static str {
    if scene.is_timed_literal() {
        return Construct::TimedLiteral.hint();
    }
    match scene.depth() {
        0 => outside_hint(scene),
        1 if is_part(scene.faulty()) => PART_HINT,
        1 => section_hint(scene),
        _ => inside_hint(scene),
    }
}

/// What may be outside all lists.
fn outside_hint(scene: &Scene<'_>) -> &'static str {
    if scene.number > 0 {
        return "the definition ended before; a file has one definition, and only comments may follow it";
    }
    if scene.refusal.is_problem {
        "a problem begins with `(define (problem NAME)`"
    } else {
        "a domain begins with `(define (domain NAME)`"
    }
}

/// What may be directly in the definition.
fn section_hint(scene: &Scene<'_>) -> &'static str {
    match (scene.number <= 2, scene.refusal.is_problem) {
        (true, true) => "a problem begins with `(define (problem NAME)`",
        (true, false) => "a domain begins with `(define (domain NAME)`",
        (false, true) =>
            "a problem has sections: `(:domain ..)`, `(:objects ..)`, `(:init ..)`, `(:goal ..)`",
        (false, false) => {
            "a domain has sections: `(:requirements ..)`, `(:types ..)`, `(:constants ..)`, `(:predicates ..)`, `(:action ..)`"
        }
    }
}

/// What may be in a section.
fn inside_hint(scene: &Scene<'_>) -> &'static str {
    let section = scene.section();
    if section.eq_ignore_ascii_case(b":types") {
        return "types are names: `(:types truck plane - vehicle vehicle)`";
    }
    if section.eq_ignore_ascii_case(b":constants") || section.eq_ignore_ascii_case(b":objects") {
        return "objects are names: `(:objects a b - block c)`";
    }
    if section.eq_ignore_ascii_case(b":predicates") {
        return "a predicate is a name and variables: `(on ?x ?y - block)`";
    }
    if section.eq_ignore_ascii_case(b":functions") {
        return "a function is a name and variables: `(distance ?from ?to - index) - number`";
    }
    if section.eq_ignore_ascii_case(b":init") {
        return "an initial atom is a predicate and objects: `(on a b)`";
    }
    if scene.is_adl() && is_formed(scene) {
        return form_hint(scene);
    }
    if section.eq_ignore_ascii_case(b":action") {
        return action_hint(scene);
    }
    if section.eq_ignore_ascii_case(b":goal") {
        return "a goal is `(p a b)`, `(not (p a b))`, or `(and ..)` of these";
    }
    if scene.depth() == 2 && scene.is_head() {
        return section_hint(scene);
    }
    "only a name may be here"
}

/// Whether the fault is where a condition or an effect is.
fn is_formed(scene: &Scene<'_>) -> bool {
    scene.place() == Place::Goal || scene.place() != Place::Other && scene.depth() > 2
}

/// What may be in an action.
fn action_hint(scene: &Scene<'_>) -> &'static str {
    if scene.depth() == 2 {
        return "an action is `(:action NAME :parameters (?x - TYPE) :precondition (..) :effect (..))`";
    }
    if scene.depth() == 3 && scene.head().first() == Some(&b'?') {
        return "parameters are variables: `(?x ?y - block ?z)`";
    }
    "a condition or an effect is `(p ?x)`, `(not (p ?x))`, or `(and ..)` of these"
}
