//! The first layer: bad bytes and wrong parentheses, found in one pass over the bytes that takes no memory.

ghost use Rattle.std.specs.Prelude.{◌≡◌, ◌≢◌, ◌↔◌, ◌+◌, ◌<◌, ◌≤◌, ◌^◌, length, slice_index, IfErr, IfOk, IsTrue, Some};
ghost use Rattle.pddl_syntax.specs.Marks.{mark_of};
ghost use Rattle.pddl_syntax.specs.ReadFault.{fault};
ghost use Rattle.pddl_syntax.specs.Refusing.{FirstFault};
ghost use Rattle.pddl_syntax.specs.Trees.{fault_after, text_fault};

use crate::fault::{FaultKind, ReadFault};
use crate::marks::{Mark, comment_end, mark_of};
use pddl_words::vectors::special_bits;

/// How deep lists may be nested.
const DEEPEST: u32 = 64;

/// Finds the first fault of a text's bytes and parentheses. The layers above read only texts that pass.
#[tactic(auto, using(crate::proofs::Depths::text_steps))]
pub fn check_text(text: &[u8]) -> Result<(), ReadFault>
    ensures first { FirstFault result (text_fault text.now) }
    ensures kind { IfErr result (λ e. e.kind ≢ FaultKind.OutOfMemory) }
{
    if text.len() >= 1 << 31 {
        return Err(ReadFault::at(FaultKind::BadText, 0, 0));
    }
    check_short(text)
}

/// Finds the first fault of a short text's bytes and parentheses, 32 bytes at a time. Words are skipped like blanks.
fn check_short(text: &[u8]) -> Result<(), ReadFault>
    requires { length text.now < 2 ^ 31 }
    ensures first { FirstFault result (text_fault text.now) }
    ensures kind { IfErr result (λ e. e.kind ≢ FaultKind.OutOfMemory) }
{
    let mut at = 0;
    let mut depth = 0;
    'passes: while text.len() - at >= 32 {
        (at, depth) = pass_block(text, at, depth)?;
    }
    check_rest(text, at, depth)
}

/// Goes over the 32 bytes from `at` on, where `depth` lists are open, or up to the end of a comment that begins among them. Returns where it
/// stopped and how many lists are open there.
#[inline(always)]
fn pass_block(text: &[u8], at: usize, depth: u32) -> Result<(usize, u32), ReadFault>
    requires room { at + 32 ≤ length text.now }
    requires short { length text.now < 2 ^ 31 }
    requires depth { depth ≤ 64 }
    ensures same { IfOk result (λ to. fault_after text.now to.0 to.1 ≡ fault_after text.now at depth) }
    ensures further { IfOk result (λ to. (at < to.0) × (to.0 ≤ length text.now)) }
    ensures depth { IfOk result (λ to. to.1 ≤ 64) }
    ensures fault { IfErr result (λ e. fault_after text.now at depth ≡ Some e) }
    ensures kind { IfErr result (λ e. e.kind ≢ FaultKind.OutOfMemory) }
{
    let mut special = special_bits(&text[at..]);
    let mut seen = at;
    let mut lists = depth;
    'marks: while special != 0 {
        let skipped = special.trailing_zeros();
        let place = seen + skipped as usize;
        if is_semicolon(text[place]) {
            return Ok((comment_end(text, place), lists));
        }
        lists = depth_behind(text, place, lists)?;
        seen = place + 1;
        special >>= skipped + 1;
    }
    Ok((at + 32, lists))
}

/// Finds the first fault of a text from an offset on, byte by byte. `depth` lists are open there.
fn check_rest(text: &[u8], from: usize, depth: u32) -> Result<(), ReadFault>
    requires within { from ≤ length text.now }
    requires short { length text.now < 2 ^ 31 }
    requires depth { depth ≤ 64 }
    ensures first { FirstFault result (fault_after text.now from depth) }
    ensures kind { IfErr result (λ e. e.kind ≢ FaultKind.OutOfMemory) }
{
    let mut at = from;
    let mut lists = depth;
    'bytes: while at < text.len() {
        if is_semicolon(text[at]) {
            at = comment_end(text, at);
        } else {
            lists = depth_behind(text, at, lists)?;
            at += 1;
        }
    }
    if lists == 0 {
        return Ok(());
    }
    let end = text.len() as u32;
    Err(ReadFault::at(FaultKind::Unbalanced, end, end))
}

/// How many lists are open behind a byte that begins no comment, if `depth` are open before it.
#[inline(always)]
fn depth_behind(text: &[u8], at: usize, depth: u32) -> Result<u32, ReadFault>
    requires within { at < length text.now }
    requires short { length text.now < 2 ^ 31 }
    requires depth { depth ≤ 64 }
    requires no_comment { mark_of (slice_index text.now at) ≢ Mark.Semicolon }
    ensures same { IfOk result (λ lists. fault_after text.now (at + 1) lists ≡ fault_after text.now at depth) }
    ensures depth { IfOk result (λ lists. lists ≤ 64) }
    ensures fault { IfErr result (λ e. fault_after text.now at depth ≡ Some e) }
    ensures kind { IfErr result (λ e. e.kind ≢ FaultKind.OutOfMemory) }
{
    match mark_of(text[at]) {
        Mark::Left if depth == DEEPEST => Err(fault_at(FaultKind::TooDeep, at)),
        Mark::Left => Ok(depth + 1),
        Mark::Right if depth == 0 => Err(fault_at(FaultKind::Unbalanced, at)),
        Mark::Right => Ok(depth - 1),
        Mark::Bad => Err(fault_at(FaultKind::BadText, at)),
        Mark::Plain => Ok(depth),
        Mark::Semicolon => Ok(depth),
    }
}

/// Whether a comment begins with this byte.
#[tactic(auto, using(crate::proofs::MarkLemmas::semicolon_is))]
fn is_semicolon(b: u8) -> bool
    ensures { IsTrue result ↔ (mark_of b ≡ Mark.Semicolon) }
{
    b == b';'
}

/// The fault at one byte.
fn fault_at(kind: FaultKind, at: usize) -> ReadFault
    requires { at < 2 ^ 31 }
    ensures { result ≡ fault kind at (at + 1) }
{
    let start = at as u32;
    ReadFault::at(kind, start, start + 1)
}
