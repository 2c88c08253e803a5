//! What to do about a refused domain or problem.

use crate::expected::push_expected_hints;
use crate::faults::{excess, passes_bindings, sort_name};
use crate::keywords::is_part;
use crate::library::{Found, push_types};
use crate::outline::{Declared, Sort};
use crate::page::Page;
use crate::positions::{Range, bytes_at, line_at, push_line};
use crate::quantifiers::{bound_names, bound_variable, declared_elsewhere, variable_list};
use crate::scene::Scene;
use crate::unsupported::push_unsupported;
use pddl_reader::FaultKind;
use std::alloc::{AllocError, Global};

/// Adds the hints for a refused text, each on a line of its own.
pub(crate) fn push_hints(page: &mut Page, scene: &mut Scene<'_>) {
    match scene.kind() {
        FaultKind::BadText => push_bad_text(page, scene),
        FaultKind::Unbalanced => push_unbalanced(page, scene),
        FaultKind::Expected => push_expected_hints(page, scene),
        FaultKind::Unsupported => push_unsupported(page, scene),
        FaultKind::UnknownName => push_unknown(page, scene),
        FaultKind::Repeated => push_repeated(page, scene),
        FaultKind::TypeCycle => page.help_line(
            "follow the parents in `(:types ..)` up from this type, and give one of them another parent",
        ),
        FaultKind::WrongCount => push_declaration(page, scene),
        FaultKind::WrongType => push_wrong_type(page, scene),
        FaultKind::TooDeep => {
            page.help_line("`(and ..)` inside `(and ..)` may be written as one `(and ..)`");
        }
        FaultKind::TooMany => push_too_many(page, scene),
        FaultKind::OutOfMemory => {}
    }
}

fn push_bad_text(page: &mut Page, scene: &Scene<'_>) {
    let at = scene.range().start;
    push_bad_byte(page, scene.bytes(), at)
}

/// Adds what a bad byte at an offset may come from.
pub(crate) fn push_bad_byte(page: &mut Page, bytes: &[u8], at: usize) {
    let rest = bytes_at(
        bytes,
        Range {
            start: at,
            end: at.saturating_add(3),
        },
    );
    page.help_line(bad_byte_hint(rest, at == 0));
}

/// What the bytes from a bad byte on may come from.
fn bad_byte_hint(rest: &[u8], is_start: bool) -> &'static str {
    match rest {
        [0xef, 0xbb, 0xbf] if is_start => {
            "EF BB BF is a byte order mark: save the file without one"
        }
        [0xef, 0xbb, 0xbf] => {
            "EF BB BF is a byte order mark, as between files that were joined: remove it"
        }
        [0xff, 0xfe, ..] | [0xfe, 0xff, ..] if is_start => {
            "the file seems to be UTF-16: save it as UTF-8"
        }
        [0xc2, 0xa0, ..] => "C2 A0 is a no-break space: write a plain space",
        [0xe2, 0x80, ..] => {
            "a dash, quotation mark or space of a word processor: write the ASCII character"
        }
        [0..=127, ..] => "this is a control byte: remove it",
        _ =>
            "names are of ASCII letters, digits, `-` and `_`; other letters may be in comments only",
    }
}

fn push_unbalanced(page: &mut Page, scene: &Scene<'_>) {
    if !scene.faulty().is_empty() {
        page.help_line("remove it, or add the `(` that is missing before it");
        return;
    }
    if let Some(nested) = nested_section(scene) {
        page.help();
        page.quoted(scene.pieces.word(nested));
        page.say(" in line ");
        let at = match scene.pieces.get(nested) {
            Some(piece) => piece.range().start,
            None => 0,
        };
        page.number(line_at(scene.bytes(), at).number);
        page.say(" is inside another section: a `)` may be missing before it\n");
        return;
    }
    page.help();
    page.say("the file ends in line ");
    page.number(line_at(scene.bytes(), scene.bytes().len()).number);
    page.say(" with ");
    page.count(open_lists(scene), "list", "lists");
    page.say(" open: add what is missing\n");
}

/// How many lists are open at the end.
fn open_lists(scene: &Scene<'_>) -> usize {
    let mut open: usize = 0;
    for piece in scene.pieces.as_slice() {
        if piece.is_left() {
            open = open.saturating_add(1);
        } else if !piece.is_word() {
            open = open.saturating_sub(1);
        }
    }
    open
}

/// The number of the first word of a section that is inside another section.
fn nested_section(scene: &Scene<'_>) -> Option<usize> {
    let mut depth: usize = 0;
    let mut is_head = false;
    for (number, piece) in scene.pieces.as_slice().iter().enumerate() {
        if piece.is_word() {
            if is_head && depth > 2 && scene.pieces.word(number).first() == Some(&b':') {
                return Some(number);
            }
        } else if piece.is_left() {
            depth = depth.saturating_add(1);
        } else {
            depth = depth.saturating_sub(1);
        }
        is_head = piece.is_left();
    }
    None
}

fn push_unknown(page: &mut Page, scene: &mut Scene<'_>) {
    let sort = scene.wanted_sort();
    if sort == Sort::Variable
        && let Some(declared) = declared_elsewhere(scene, action_start(scene), scene.faulty())
    {
        push_scope(page, scene, declared);
        return;
    }
    let near = nearest(page.alloc(), scene, sort);
    if let Some(name) = page.found(near) {
        push_did_you_mean(page, name);
        return;
    }
    page.help_line(match sort {
        Sort::Type => "declare it in `(:types ..)` of the domain",
        Sort::Predicate => "declare it in `(:predicates ..)` of the domain",
        Sort::Function => "declare it in `(:functions ..)` of the domain",
        Sort::Variable if scene.refusal.is_problem => {
            "a variable of a goal is inside an `exists` or a `forall` that declares it"
        }
        Sort::Variable if scene.is_adl() => {
            "declare it in `:parameters` of the action, or in a quantifier around it"
        }
        Sort::Variable => "declare it in `:parameters` of the action",
        _ if scene.refusal.is_problem => {
            "declare it in `(:objects ..)`, or in `(:constants ..)` of the domain"
        }
        _ => "a variable begins with `?`; a name has to be in `(:constants ..)`",
    })
}

/// Adds where a variable is declared that is not known at the fault.
fn push_scope(page: &mut Page, scene: &Scene<'_>, declared: Range) {
    page.help();
    page.quoted(scene.faulty());
    page.say(" in line ");
    page.number(line_at(scene.bytes(), declared.start).number);
    page.say(" is known inside its quantifier only\n");
}

/// Adds the name that may be meant.
pub(crate) fn push_did_you_mean(page: &mut Page, name: &[u8]) {
    page.help();
    page.say("did you mean ");
    page.quoted(name);
    page.say("?\n");
}

/// The name that is nearest to the faulty one, if one is near.
fn nearest<'a>(
    alloc: Global,
    scene: &mut Scene<'a>,
    sort: Sort,
) -> Result<Option<&'a [u8]>, AllocError> {
    let word = scene.faulty();
    if sort != Sort::Variable {
        return scene.library.nearest(alloc, sort, word);
    }
    let names = bound_names(alloc, scene)?;
    let action = scene.action();
    scene
        .library
        .nearest_variable(alloc, action, names.as_slice(), word)
}

fn push_repeated(page: &mut Page, scene: &mut Scene<'_>) {
    let word = scene.faulty();
    if let Some(at) = first_offset(scene, word) {
        push_first(page, scene.bytes(), at);
        return;
    }
    let sort = scene.declared_sort();
    match scene.library.find(sort, word) {
        Some(found) if is_typed(sort) => push_declared_at(page, &found),
        Some(found) => push_first(page, found.file.bytes, found.declared.name.start),
        None => {}
    }
}

/// Whether a name of a sort is declared with a type.
fn is_typed(sort: Sort) -> bool {
    matches!(sort, Sort::Type | Sort::Object)
}

/// Adds the line of the first of two.
fn push_first(page: &mut Page, bytes: &[u8], at: usize) {
    page.help();
    page.say("the first is in line ");
    page.number(line_at(bytes, at).number);
    page.say("; remove one of the two\n");
}

/// The offset of the first use of a keyword or a variable that may not be repeated.
fn first_offset(scene: &Scene<'_>, word: &[u8]) -> Option<usize> {
    let start = match word.first() {
        Some(b'?') => variables_start(scene),
        Some(b':') if is_part(word) => action_start(scene),
        Some(b':') => 0,
        _ => return None,
    };
    for piece in scene.pieces.as_slice() {
        let range = piece.range();
        if range.start >= scene.range().start {
            return None;
        }
        if range.start >= start && bytes_at(scene.bytes(), range).eq_ignore_ascii_case(word) {
            return Some(range.start);
        }
    }
    None
}

/// Where the variables begin among which the fault is: the list of a quantifier, or the action.
fn variables_start(scene: &Scene<'_>) -> usize {
    match variable_list(scene).and_then(|open| scene.pieces.get(open)) {
        Some(piece) => piece.range().start,
        None => action_start(scene),
    }
}

/// Where the action around the fault begins.
fn action_start(scene: &Scene<'_>) -> usize {
    match scene.action() {
        Some(action) => action.declared.name.start,
        None => 0,
    }
}

/// Adds where a name is declared, and with which type.
fn push_declared_at(page: &mut Page, found: &Found<'_>) {
    page.help();
    page.quoted(found.name());
    page.say(" is declared at ");
    push_line(page, found.file, found.declared.name.start);
    page.say(if found.declared.sort == Sort::Type {
        " below `"
    } else {
        " with the type `"
    });
    push_types(page, found.file.bytes, &found.declared);
    page.say("`\n");
}

/// Adds the declaration of the faulty name, with its variables.
fn push_declaration(page: &mut Page, scene: &mut Scene<'_>) {
    let sort = scene.wanted_sort();
    let word = scene.faulty();
    match scene.library.find(sort, word) {
        Some(found) => push_signature_at(page, scene, &found),
        None => {}
    }
}

/// Adds a declaration with its variables and where it is.
fn push_signature_at<'a>(page: &mut Page, scene: &Scene<'a>, found: &Found<'a>) {
    page.help();
    page.say("the ");
    page.say(sort_name(found.declared.sort));
    page.say(" is declared at ");
    push_line(page, found.file, found.declared.name.start);
    page.say(" as ");
    scene.library.push_signature(page, found);
    page.say("\n");
}

fn push_wrong_type(page: &mut Page, scene: &mut Scene<'_>) {
    push_type_of_term(page, scene);
    let outer = scene.outer_head();
    let is_value = outer == b"=".as_slice() || outer.eq_ignore_ascii_case(b"increase");
    let sort = if is_value && scene.is_ipc() {
        Sort::Function
    } else {
        Sort::Predicate
    };
    let head = scene.head();
    match scene.library.find(sort, head) {
        Some(found) => push_signature_at(page, scene, &found),
        None => {}
    }
}

/// Adds the type of the faulty term.
fn push_type_of_term(page: &mut Page, scene: &mut Scene<'_>) {
    let word = scene.faulty();
    if word.first() != Some(&b'?') {
        return match scene.library.find(Sort::Object, word) {
            Some(found) => push_declared_at(page, &found),
            None => {}
        };
    }
    let Some(variable) = variable_at(scene, word) else {
        return;
    };
    page.help();
    page.quoted(word);
    page.say(" is declared in line ");
    page.number(line_at(scene.bytes(), variable.name.start).number);
    page.say(" with the type `");
    push_types(page, scene.bytes(), &variable);
    page.say("`\n");
}

/// The variable with a name at the fault: that of a quantifier around it, or a parameter of the action.
fn variable_at(scene: &Scene<'_>, word: &[u8]) -> Option<Declared> {
    match bound_variable(scene, word) {
        Some(variable) => Some(variable),
        None => scene.library.variable_named(&scene.action()?, word),
    }
}

fn push_too_many(page: &mut Page, scene: &Scene<'_>) {
    if passes_bindings(scene) {
        page.help_line(
            "each quantifier counts with the choices of objects for its variables, times those of the quantifiers around it; they may add up to 16,777,216",
        );
        return;
    }
    let (_, limit) = excess(scene);
    page.help();
    page.say("there may be at most ");
    page.number(limit);
    page.say("\n");
}
