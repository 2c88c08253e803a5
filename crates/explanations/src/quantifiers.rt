//! The variables that quantifiers around a fault bind.

use crate::outline::{Declared, Sort};
use crate::positions::Range;
use crate::scene::Scene;
use crate::tokens::Pieces;
use std::alloc::{AllocError, Global};

/// How many lists may be around a fault.
const MOST_LISTS: usize = 66;

/// Whether a word binds variables.
pub(crate) fn is_quantifier(word: &[u8]) -> bool {
    word.eq_ignore_ascii_case(b"forall") || word.eq_ignore_ascii_case(b"exists")
}

/// The number of the `(` of the list of variables in which the fault is, if it is in that of a quantifier.
pub(crate) fn variable_list(scene: &Scene<'_>) -> Option<usize> {
    variable_list_at(scene, scene.list()?)
}

/// The number of a `(`, if it begins the variables of a quantifier.
pub(crate) fn variable_list_at(scene: &Scene<'_>, open: usize) -> Option<usize> {
    let outer = scene.pieces.list_around(open)?;
    if is_quantifier(scene.head_of(Some(outer))) && open == outer.saturating_add(2) {
        Some(open)
    } else {
        None
    }
}

/// How many variables are before a piece in the list of variables that begins at another.
pub(crate) fn variables_before(pieces: &Pieces<'_>, open: usize, number: usize) -> usize {
    let mut count: usize = 0;
    for at in open..number {
        if pieces.word(at).first() == Some(&b'?') {
            count = count.saturating_add(1);
        }
    }
    count
}

/// The variable with a name that a quantifier around the fault binds, if one does. Of several, that of the innermost quantifier.
pub(crate) fn bound_variable(scene: &Scene<'_>, name: &[u8]) -> Option<Declared> {
    let mut list = scene.list();
    for _ in 0..MOST_LISTS {
        let open = list?;
        if is_quantifier(scene.head_of(list))
            && let Some(number) = variable_in(&scene.pieces, open.saturating_add(2), name)
        {
            return Some(Declared {
                sort: Sort::Variable,
                name: range_at(&scene.pieces, number),
                owner: 0,
                types: types_after(&scene.pieces, number),
            });
        }
        list = scene.pieces.list_around(open);
    }
    None
}

/// Where a quantifier between an offset and the fault declares a variable with a name that is not known at the fault.
pub(crate) fn declared_elsewhere(scene: &Scene<'_>, start: usize, name: &[u8]) -> Option<Range> {
    for (number, piece) in scene.pieces.as_slice().iter().enumerate() {
        if piece.range().start >= start
            && number < scene.number
            && is_quantifier(scene.pieces.word(number))
            && let Some(found) = variable_in(&scene.pieces, number.saturating_add(1), name)
        {
            return Some(range_at(&scene.pieces, found));
        }
    }
    None
}

/// The names of all variables that quantifiers around the fault bind.
pub(crate) fn bound_names<'a>(
    alloc: Global,
    scene: &Scene<'a>,
) -> Result<Vec<&'a [u8]>, AllocError> {
    let mut names = Vec::new(alloc);
    let mut list = scene.list();
    for _ in 0..MOST_LISTS {
        let Some(open) = list else {
            return Ok(names);
        };
        if is_quantifier(scene.head_of(list)) {
            push_names(&mut names, &scene.pieces, open.saturating_add(2))?;
        }
        list = scene.pieces.list_around(open);
    }
    Ok(names)
}

/// Adds the variables of a list that begins at a piece.
fn push_names<'a>(
    names: &mut Vec<&'a [u8]>,
    pieces: &Pieces<'a>,
    open: usize,
) -> Result<(), AllocError> {
    for number in open..end_of(pieces, open) {
        let word = pieces.word(number);
        if word.first() == Some(&b'?') {
            names.push(word)?;
        }
    }
    Ok(())
}

/// The number of a variable in the list of variables that begins at a piece.
fn variable_in(pieces: &Pieces<'_>, open: usize, name: &[u8]) -> Option<usize> {
    (open..end_of(pieces, open)).find(|number| pieces.is_word(*number, name))
}

/// The number of the `)` that closes the list that begins at a piece, or else how many pieces there are.
fn end_of(pieces: &Pieces<'_>, open: usize) -> usize {
    let mut depth: usize = 0;
    for (number, piece) in pieces.as_slice().iter().enumerate().skip(open) {
        if piece.is_left() {
            depth = depth.saturating_add(1);
        } else if !piece.is_word() {
            depth = depth.saturating_sub(1);
        }
        if depth == 0 {
            return number;
        }
    }
    pieces.as_slice().len()
}

/// The type of the variable with a number in its list, with its parentheses if it is a list; empty if it has none.
fn types_after(pieces: &Pieces<'_>, variable: usize) -> Range {
    let nothing = Range { start: 0, end: 0 };
    for (number, piece) in pieces.as_slice().iter().enumerate().skip(variable) {
        if !piece.is_word() {
            return nothing;
        }
        if pieces.is_word(number, b"-") {
            let first = number.saturating_add(1);
            return Range {
                start: range_at(pieces, first).start,
                end: range_at(pieces, end_of(pieces, first)).end,
            };
        }
    }
    nothing
}

/// The range of a piece.
fn range_at(pieces: &Pieces<'_>, number: usize) -> Range {
    match pieces.get(number) {
        Some(piece) => piece.range(),
        None => Range { start: 0, end: 0 },
    }
}
