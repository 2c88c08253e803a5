//! Names, and a table that they are pushed to.

use crate::seen::{Seen, Stop, refused_if, whole_if};
use pddl_reader::Seed;
use pddl_tokens::{WordKind, word_kind};
use std::alloc::Global;
use strips_judge::{Name, NameTable};

/// The names that are pushed. Those of more than 22 bytes take memory of their own.
const NAMES: [&[u8]; 12] = [
    b"lit",
    b"a-word-of-more-than-twenty-two-bytes",
    b"dark",
    b"light",
    b"another-word-of-more-than-twenty-two-bytes",
    b"pick-up",
    b"stack",
    b"on",
    b"clear",
    b"one-more-word-of-more-than-twenty-two-bytes",
    b"holding",
    b"handempty",
];

/// The name of a word.
fn name(alloc: Global, word: &[u8]) -> Result<Name, Stop> {
    match word_kind(word) {
        WordKind::Name => Ok(Name::from_word(alloc, word)?),
        _ => Err(Stop::Wrong),
    }
}

/// A name is made of a word, and is in lower case.
pub(crate) fn name_row(alloc: Global) -> Seen {
    let name = name(alloc, b"A-Word-Of-More-Than-Twenty-Two-Bytes")?;
    whole_if(name.as_bytes() == b"a-word-of-more-than-twenty-two-bytes".as_slice())
}

/// Names are pushed to a table until a push is refused memory.
pub(crate) fn push_row(alloc: Global) -> Seen {
    let mut table = NameTable::new(alloc, Seed::fixed());
    for (number, word) in NAMES.iter().enumerate() {
        push(alloc, &mut table, word, number)?;
    }
    whole_if(has_first(&table, NAMES.len()))
}

/// Pushes the name of a word. If that is refused memory, the name and its number come back, and the table is what it was.
fn push(alloc: Global, table: &mut NameTable<usize>, word: &[u8], number: usize) -> Seen {
    let name = name(alloc, word)?;
    if table.number_of(name.as_bytes()).is_some() {
        return Err(Stop::Wrong);
    }
    match table.push(name, number) {
        Ok(()) => Ok(()),
        Err(failed) => {
            let (name, value) = failed.value;
            refused_if(name.as_bytes() == word && value == number && has_first(table, number))
        }
    }
}

/// Whether a table has the first `count` names and no other.
fn has_first(table: &NameTable<usize>, count: usize) -> bool {
    for (number, word) in NAMES.iter().enumerate() {
        if number < count && table.number_of(word) != Some(number) {
            return false;
        }
    }
    table.len() == count
}
