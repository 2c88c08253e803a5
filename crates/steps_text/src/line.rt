//! What a line asks.
ghost use Rattle.std.specs.Prelude.{◌≡◌, ◌<◌, IfOk, None, Some};
ghost use Rattle.std.specs.Option.{option_map};
ghost use Rattle.steps_text.specs.Lines.{first_number, only_number, two_numbers, desk_in, submit_in, close_in, take_in, back_in, finish_in, emit_in, is_skipped, meaning_of, line_meaning};
ghost use Rattle.steps_text.specs.Meanings.{shown};

use crate::words::{is_bare, split_word, without_crs};
use intake_core::Step;
use pddl_words::digits;
use plan_text::read_plan;
use std::alloc::{AllocError, Global};
use std::sync::Arc;

/// What a line that is not skipped says.
#[derive(Drop)]
pub(crate) enum Meaning {
    /// How large the intake is.
    Desk { planners: u32, slots: u32 },
    /// A step.
    Step(Step),
    /// Nothing of the format.
    Strange,
}

/// What a line says; `None` if it is skipped.
#[tactic(auto, unfolding(crate::specs::Lines::line_meaning))]
pub(crate) fn line_meaning(alloc: Global, line: &[u8]) -> Result<Option<Meaning>, AllocError>
    ensures { IfOk result (λ meaning. option_map shown meaning ≡ line_meaning line.now) }
{
    let (word, rest) = split_word(without_crs(line));
    if is_skipped(word) {
        return Ok(None);
    }
    Ok(Some(meaning_of(alloc, word, rest)?))
}

/// Whether a line with this first word is skipped.
fn is_skipped(word: &[u8]) -> bool
    ensures { result ≡ is_skipped word.now }
{
    match word.first() {
        Some(b) => *b == b';',
        None => true,
    }
}

/// What a line says with this first word and this rest.
#[tactic(auto, unfolding(crate::specs::Lines::meaning_of))]
fn meaning_of(alloc: Global, word: &[u8], rest: &[u8]) -> Result<Meaning, AllocError>
    ensures { IfOk result (λ meaning. shown meaning ≡ meaning_of word.now rest.now) }
{
    if word == b"desk".as_slice() {
        Ok(desk(rest))
    } else if word == b"submit".as_slice() {
        submit(alloc, rest)
    } else if word == b"close".as_slice() {
        Ok(close(rest))
    } else if word == b"take".as_slice() {
        Ok(take(rest))
    } else if word == b"back".as_slice() {
        Ok(hand_back(rest))
    } else if word == b"finish".as_slice() {
        Ok(finish(rest))
    } else if word == b"emit".as_slice() {
        Ok(emit(rest))
    } else {
        Ok(Meaning::Strange)
    }
}

#[tactic(auto, unfolding(crate::specs::Lines::desk_in))]
fn desk(rest: &[u8]) -> Meaning
    ensures { shown result ≡ desk_in rest.now }
{
    match two_numbers(rest) {
        Some((planners, slots)) => Meaning::Desk { planners, slots },
        None => Meaning::Strange,
    }
}

#[tactic(auto, unfolding(crate::specs::Lines::submit_in))]
fn submit(alloc: Global, rest: &[u8]) -> Result<Meaning, AllocError>
    ensures { IfOk result (λ meaning. shown meaning ≡ submit_in rest.now) }
{
    match first_number(rest) {
        Some((planner, text)) => Ok(Meaning::Step(Step::Submit {
            planner,
            plan: Arc::new(alloc, read_plan(alloc, text)?)?,
        })),
        None => Ok(Meaning::Strange),
    }
}

#[tactic(auto, unfolding(crate::specs::Lines::close_in))]
fn close(rest: &[u8]) -> Meaning
    ensures { shown result ≡ close_in rest.now }
{
    match only_number(rest) {
        Some(planner) => Meaning::Step(Step::Close { planner }),
        None => Meaning::Strange,
    }
}

#[tactic(auto, unfolding(crate::specs::Lines::take_in))]
fn take(rest: &[u8]) -> Meaning
    ensures { shown result ≡ take_in rest.now }
{
    if is_bare(rest) {
        Meaning::Step(Step::Take)
    } else {
        Meaning::Strange
    }
}

#[tactic(auto, unfolding(crate::specs::Lines::back_in))]
fn hand_back(rest: &[u8]) -> Meaning
    ensures { shown result ≡ back_in rest.now }
{
    match only_number(rest) {
        Some(job) => Meaning::Step(Step::HandBack { job }),
        None => Meaning::Strange,
    }
}

#[tactic(auto, unfolding(crate::specs::Lines::finish_in))]
fn finish(rest: &[u8]) -> Meaning
    ensures { shown result ≡ finish_in rest.now }
{
    match two_numbers(rest) {
        Some((job, of)) => Meaning::Step(Step::Finish { job, of }),
        None => Meaning::Strange,
    }
}

#[tactic(auto, unfolding(crate::specs::Lines::emit_in))]
fn emit(rest: &[u8]) -> Meaning
    ensures { shown result ≡ emit_in rest.now }
{
    match only_number(rest) {
        Some(planner) => Meaning::Step(Step::Emit { planner }),
        None => Meaning::Strange,
    }
}

/// The number that begins a line, and what follows it.
fn first_number(line: &[u8]) -> Option<(u32, &[u8])>
    ensures { option_map (λ found. (found.0, found.1.now)) result ≡ first_number line.now }
{
    let (word, rest) = split_word(line);
    let number = digits(word)?;
    Some((number as u32, rest))
}

/// The number in a line that has nothing else.
fn only_number(line: &[u8]) -> Option<u32>
    ensures { result ≡ only_number line.now }
{
    let (number, rest) = first_number(line)?;
    if is_bare(rest) { Some(number) } else { None }
}

/// The two numbers in a line that has nothing else.
fn two_numbers(line: &[u8]) -> Option<(u32, u32)>
    ensures { result ≡ two_numbers line.now }
{
    let (first, rest) = first_number(line)?;
    let second = only_number(rest)?;
    Some((first, second))
}
