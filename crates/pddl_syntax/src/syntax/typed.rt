//! Lists of typed names, and what a text may have that means nothing for plans.

ghost use Rattle.std.specs.Prelude.{◌≡◌, [], true, Some};
ghost use Rattle.pddl_words.specs.Words.{is_name};
ghost use Rattle.pddl_syntax.specs.Levels.{here};
ghost use Rattle.pddl_syntax.specs.Walking.{behind};
ghost use Rattle.pddl_syntax.specs.Reading.{ReadsList, TakesName};
ghost use Rattle.pddl_syntax.specs.Forms.{name_groups};
ghost use Rattle.pddl_syntax.specs.Keywords.{object_word};
ghost use Rattle.pddl_syntax.specs.Syntax.{keywords_of, leading_name, typed_names};

use crate::fault::{FaultKind, ReadFault};
use crate::heads::{is_dash, is_keyword, is_name};
use crate::syntax::refusals::list_fault;
use crate::syntax::{NameGroup, Names};
use crate::walk::{Item, NameWord, Walk, Word};
use pddl_tokens::Span;
use std::alloc::Global;

/// Reads the keywords of `:requirements`, and keeps none of them.
#[tactic(auto, using(crate::proofs::TypedLemmas::keyword_steps))]
pub(crate) fn keywords(walk: &mut Walk<'_>) -> Result<(), ReadFault>
    ensures { ReadsList (λ _. tt) result keywords_of (here walk.old.cursor) (here walk.new.cursor) }
{
    'words: loop {
        match walk.next() {
            Item::Close(_) => return Ok(()),
            Item::Open(span) => return Err(ReadFault::new(FaultKind::Expected, span)),
            Item::Text(word) => {
                if !is_keyword(word.text) {
                    return Err(ReadFault::new(FaultKind::Expected, word.span));
                }
            }
        }
    }
}

/// The name `object`, which no word of a text spells: the type of a last group without one.
#[tactic(auto, unfolding(pddl_words::specs::Words::is_name))]
pub(crate) fn object() -> NameWord<'static>
    ensures { result.text.now ≡ object_word }
{
    NameWord::new(Word {
        span: Span { start: 0, end: 0 },
        text: b"object",
    })
}

/// Steps over the name that is due as the type of names.
#[tactic(auto, using(crate::proofs::TypedLemmas::leading_steps))]
fn name_type<'a>(walk: &mut Walk<'a>) -> Result<NameWord<'a>, ReadFault>
    ensures { TakesName result (here walk.old.cursor) (here walk.new.cursor) }
{
    match walk.next() {
        Item::Text(word) => {
            if !is_name(word.text) {
                return Err(ReadFault::new(FaultKind::Expected, word.span));
            }
            Ok(NameWord::new(word))
        }
        Item::Open(span) => Err(list_fault(walk, span)),
        Item::Close(span) => Err(ReadFault::new(FaultKind::Expected, span)),
    }
}

/// Reads the groups of a list of typed names.
#[tactic(auto, using(crate::proofs::TypedLemmas::typed_steps))]
pub(crate) fn typed_names<'a>(
    alloc: Global,
    walk: &mut Walk<'a>,
) -> Result<Vec<NameGroup<'a>>, ReadFault>
    ensures { ReadsList (λ v. name_groups v.items) result (typed_names []) (here walk.old.cursor) (here walk.new.cursor) }
{
    let mut groups = Vec::new(alloc);
    let mut names = Names::new(alloc);
    'words: loop {
        match walk.next() {
            Item::Close(_) => {
                if names.is_empty() {
                    return Ok(groups);
                }
                groups.push(NameGroup {
                    names,
                    kind: object(),
                })?;
                return Ok(groups);
            }
            Item::Open(span) => return Err(ReadFault::new(FaultKind::Expected, span)),
            Item::Text(word) => {
                if !is_dash(word.text) {
                    if !is_name(word.text) {
                        return Err(ReadFault::new(FaultKind::Expected, word.span));
                    }
                    names.push(NameWord::new(word))?;
                    continue 'words;
                }
                if names.is_empty() {
                    return Err(ReadFault::new(FaultKind::Expected, word.span));
                }
                let kind = name_type(walk)?;
                groups.push(NameGroup { names, kind })?;
                names = Names::new(alloc);
            }
        }
    }
}

/// Steps out of the list that the walk is in, over whatever is left in it.
#[cycle(skipping)]
pub(crate) fn skip(walk: &mut Walk<'_>)
    ensures { here walk.new.cursor ≡ behind (here walk.old.cursor).below }
{
    'items: loop {
        match walk.next() {
            Item::Close(_) => return,
            Item::Open(_) => skip(walk),
            Item::Text(_) => {}
        }
    }
}
