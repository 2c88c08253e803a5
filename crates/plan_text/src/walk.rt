//! A walk over the steps of a plan text, none of which is kept.

ghost use Rattle.std.specs.Prelude.{◌≡◌, ◌+◌, ◌<◌, ◌≤◌, ◌^◌, [], ◌∷◌, ◌++◌, length, map, ℕ, List, false, IsTrue, MatchOption, IfSome, IfOk};
ghost use Rattle.pddl_words.specs.Words.{is_name, folded};
ghost use Rattle.pddl_tokens.specs.declared.spans.Span.{Span};
ghost use Rattle.pddl_tokens.specs.declared.spans.TokenKind.TheVariants.{Left};
ghost use Rattle.pddl_tokens.specs.Tokens.{Piece, token};
ghost use Rattle.pddl_tokens.specs.Within.{AreWithin};
ghost use Rattle.strips_task.specs.declared.plans.Plan.TheVariants.{Unreadable};
ghost use Rattle.strips_task.specs.Spelled.{IsSpelled, step_spelled};
ghost use Rattle.strips_task.specs.Steps.{step_of};
ghost use Rattle.plan_text.specs.PlanReading.{plan_of};
ghost use Rattle.plan_text.specs.Walks.{HasPassed, GoesBehind, GoesOn, RestsAt, words_before};
ghost use Rattle.plan_text.specs.declared.walk.TextStep.TheVariants.{End};
ghost use Rattle.plan_text.specs.WalkFinds.{ComesNext, IsBetweenSteps, IsFound, IsOnward, IsOpened, IsOpening, IsInside, IsEnding, ended};
ghost use Rattle.strips_task.specs.declared.steps.TheConstants.{MOST_STEPS};

use crate::between::{read_between, read_number};
use crate::want::{Expected, Want};
use pddl_tokens::{Cursor, ParenRange, TokenKind, WordKind, line_of, word_kind};
use std::alloc::AllocError;
use std::marker::Model;
use strips_task::{MOST_STEPS, OpenSteps};

/// A walk over the steps of a plan text. It keeps none of them, and takes no memory.
#[derive(Drop)]
pub struct PlanSteps<'a> {
    text: &'a [u8],
    cursor: Cursor<'a>,
    expected: Expected,
    count: usize,
}

impl<'a> Model for PlanSteps<'a> {
    ghost use Rattle.std.specs.Prelude.{◌<◌, ◌≤◌, ◌^◌, length};
    ghost use Rattle.pddl_tokens.specs.Within.{AreWithin};
    ghost use Rattle.strips_task.specs.declared.steps.TheConstants.{MOST_STEPS};
    ghost use Rattle.plan_text.specs.Walks.{Walk, RestsAt};

    ghost Value = { Walk };

    ghost view = { λ w. record {
      text = w.text.now;
      rest = w.cursor;
      want = w.expected.want;
      least = w.expected.least_stamp;
      count = w.count;
    } };

    ghost invariant = { λ w.
        (length w.text.now < 2 ^ 31) × AreWithin (length w.text.now) w.cursor × RestsAt w.expected.want w.count × (w.count ≤ MOST_STEPS) };
}

/// What a walk finds next.
#[derive(Drop)]
pub enum TextStep<'a> {
    /// A step, which the walk has passed.
    Step {
        /// Its words.
        words: StepWords<'a>,
        /// The bytes between its parentheses, if they are the names of the step with a single space between each two. A caller that remembers
        /// what the step means may pass it with `PlanSteps::next_range` and `PlanSteps::skip` from now on.
        key: Option<&'a [u8]>,
    },
    /// The end of the text, which is a plan text.
    End,
    /// A fault, so that the text is no plan text.
    Unreadable {
        /// The line of the first fault, counted from 1.
        line: u32,
    },
}

/// How a walk goes on.
#[derive(Drop)]
pub enum Onward<'a> {
    /// It has passed a stamp or a number in brackets, and no step.
    Number,
    /// It has found a step, the end of the text or a fault.
    Found(TextStep<'a>),
}

/// The words of a step as they are in its text. Contracts see those that are left.
#[derive(Drop)]
pub struct StepWords<'a> {
    cursor: Cursor<'a>,
}

impl<'a> Model for StepWords<'a> {
    ghost use Rattle.std.specs.Prelude.{ℕ, List};
    ghost use Rattle.plan_text.specs.Walks.{words_before};

    ghost Value = { List (List ℕ) };

    ghost view = { λ w. words_before w.cursor };
}

impl<'a> StepWords<'a> {
    ghost use Rattle.std.specs.Option.{option_copied};
    ghost use Rattle.plan_text.specs.WalkFinds.{TakesWord};

    /// The next word, as it is in the text, in upper or lower case.
    pub fn next(&mut self) -> Option<&'a [u8]>
        ensures { TakesWord (option_copied result) self.old self.new }
    {
        let mut cursor = self.cursor.fork();
        match cursor.next() {
            Ok(Some(token)) => match token.kind {
                TokenKind::Word => {
                    self.cursor = cursor;
                    Some(token.text)
                }
                _ => None,
            },
            _ => None,
        }
    }

    /// The same words once more.
    pub fn fork(&self) -> Self
        ensures { result ≡ self.now }
    {
        StepWords {
            cursor: self.cursor.fork(),
        }
    }

    /// Reads the words into an empty step, in lower case, and closes it. The only error is running out of memory.
    pub fn push_to(&self, step: &mut OpenSteps) -> Result<(), AllocError>
        requires fresh { step.old ≡ record { steps = []; words = [] } }
        requires some { 0 < length self.now }
        ensures { IfOk result (λ _. step.new ≡ record { steps = step_of (map folded self.now) ∷ []; words = [] }) }
    {
        self.push_step(step)
    }

    /// Reads the words into a new step of a plan, in lower case, and closes it. The only error is running out of memory.
    pub(crate) fn push_step(&self, plan: &mut OpenSteps) -> Result<(), AllocError>
        requires closed { plan.old.words ≡ [] }
        requires some { 0 < length self.now }
        requires room { length plan.old.steps < MOST_STEPS }
        ensures { IfOk result (λ _. plan.new ≡ record { steps = plan.old.steps ++ step_of (map folded self.now) ∷ []; words = [] }) }
    {
        push_words(self.fork(), plan)?;
        plan.close_step()?;
        Ok(())
    }
}

/// Reads words into an open step, in lower case.
fn push_words(mut words: StepWords<'_>, step: &mut OpenSteps) -> Result<(), AllocError>
    ensures { IfOk result (λ _. step.new ≡ record { steps = step.old.steps; words = step.old.words ++ map folded words.entry }) }
{
    'words: while let Some(word) = words.next() {
        step.push_word(word)?;
    }
    Ok(())
}

impl<'a> PlanSteps<'a> {
    /// A walk at the start of a text. A text of 2^31 bytes or more, which is unreadable in line 1, has none.
    pub fn new(text: &'a [u8]) -> Option<Self>
        ensures { MatchOption result
            ((2 ^ 31 ≤ length text.now) × (plan_of text.now ≡ Unreadable 1))
            (λ walk. (walk.text ≡ text.now) × HasPassed walk []) }
    {
        match Cursor::new(text) {
            Ok(cursor) => Some(PlanSteps {
                text,
                cursor,
                expected: Expected {
                    want: Want::Step,
                    least_stamp: 0,
                },
                count: 0,
            }),
            Err(_) => None,
        }
    }

    /// The text.
    pub fn text(&self) -> &'a [u8]
        ensures { result.now ≡ self.now.text }
    {
        self.text
    }

    /// How many steps the walk has passed.
    pub fn count(&self) -> usize
        ensures { result ≡ self.now.count }
    {
        self.count
    }

    /// The bytes between the parentheses that follow, if a step may come here.
    ///
    /// These bytes were not read yet. They are the next step only if they are known to spell one.
    #[inline(always)]
    pub fn next_range(&self) -> Option<ParenRange<'a>>
        ensures { IfSome result (λ range. ComesNext self.now range) }
    {
        if self.count < MOST_STEPS {
            self.cursor.paren_range()
        } else {
            None
        }
    }

    /// Passes the next step, which the key of its range must spell.
    #[inline(always)]
    pub fn skip(&mut self, range: ParenRange<'a>)
        requires next { ComesNext self.old range }
        requires spelled { IsSpelled range.key.now }
        ensures { GoesBehind self.old self.new (step_spelled range.entry.key.now) }
    {
        self.cursor = range.rest;
        self.expected = self.expected.then(Want::Number);
        self.count += 1;
    }

    /// Reads to the end of the next step, including its stamp. At the end of the text and at a fault the walk stays where it is, so each further
    /// call gives the same answer.
    #[inline(always)]
    pub fn next_step(&mut self) -> TextStep<'a>
        ensures { IsFound result self.old self.new }
    {
        if let Some(range) = self.next_range() {
            if range.are_names() {
                return self.take_range(range);
            }
        } else if self.is_over() {
            return TextStep::End;
        }
        self.read_step()
    }

    /// Reads on token by token to the end of the stamp or the number that comes next. If none does, reads to the end of the next step, as
    /// [`next_step`](PlanSteps::next_step) does.
    #[inline(always)]
    pub fn read_on(&mut self) -> Onward<'a>
        ensures { IsOnward result self.old self.new }
    {
        if self.pass_number() {
            return Onward::Number;
        }
        self.read_tokens()
    }

    /// Reads on token by token, as [`read_on`](PlanSteps::read_on) does.
    #[inline(never)]
    fn read_tokens(&mut self) -> Onward<'a>
        ensures { IsOnward result self.old self.new }
    {
        if self.is_over() {
            return Onward::Found(TextStep::End);
        }
        let mut cursor = self.cursor.fork();
        match next_between(self.text, &mut cursor, self.expected, self.count) {
            Between::Number { next } => {
                self.cursor = cursor;
                self.expected = next;
                Onward::Number
            }
            Between::Over { opening } => Onward::Found(self.find(cursor, opening)),
        }
    }

    /// Passes the stamp or the number that comes next, if only blanks are before it. Returns whether it did; if not, one may come all the same.
    #[inline(always)]
    fn pass_number(&mut self) -> bool
        ensures passed { IsTrue result → GoesOn self.old self.new × (length self.new.rest < length self.old.rest) }
        ensures stays { result ≡ false → self.new ≡ self.old }
    {
        let Some(word) = self.cursor.word() else {
            return false;
        };
        let Some(next) = read_number(self.count, self.expected, word.text) else {
            return false;
        };
        if next.want.takes_name() {
            return false;
        }
        self.cursor = word.rest;
        self.expected = next;
        true
    }

    /// Whether the text may end here, and only blanks follow.
    fn is_over(&self) -> bool
        ensures { IsTrue result → IsFound End self.now self.now }
    {
        match ended(self.expected.want, self.text) {
            Opening::End => self.cursor.is_over(),
            Opening::Fault { .. } | Opening::Open { .. } => false,
        }
    }

    /// Passes the step that a range spells.
    #[inline(always)]
    fn take_range(&mut self, range: ParenRange<'a>) -> TextStep<'a>
        requires next { ComesNext self.old range }
        requires spelled { IsSpelled range.key.now }
        ensures { IsFound result self.old self.new }
    {
        let words = words_inside(&self.cursor);
        let key = range.key;
        self.skip(range);
        TextStep::Step {
            words,
            key: Some(key),
        }
    }

    /// Reads to the end of the next step, token by token.
    fn read_step(&mut self) -> TextStep<'a>
        ensures { IsFound result self.old self.new }
    {
        let mut cursor = self.cursor.fork();
        let opening = open_step(self.text, &mut cursor, self.expected, self.count);
        self.find(cursor, opening)
    }

    /// What the walk finds, if this is how the next step opens, and the cursor is behind its `(`.
    fn find(&mut self, cursor: Cursor<'a>, opening: Opening) -> TextStep<'a>
        requires { IsOpening opening self.old.text (record { want = self.old.want; least_stamp = self.old.least }) self.old.count
            self.old.rest cursor }
        ensures { IsFound result self.old self.new }
    {
        match opening {
            Opening::End => TextStep::End,
            Opening::Fault { offset } => TextStep::Unreadable {
                line: line_of(self.text, offset),
            },
            Opening::Open { least_stamp } => self.close_step(cursor, least_stamp),
        }
    }

    /// Reads to the end of the step whose `(` is before this cursor.
    fn close_step(&mut self, mut cursor: Cursor<'a>, least_stamp: u64) -> TextStep<'a>
        requires { IsOpened self.old.text (record { want = self.old.want; least_stamp = self.old.least }) self.old.count least_stamp
            self.old.rest cursor }
        ensures { IsFound result self.old self.new }
    {
        let words = StepWords {
            cursor: cursor.fork(),
        };
        match pass_words(self.text, &mut cursor) {
            Ok(()) => {
                self.cursor = cursor;
                self.expected = Expected {
                    want: Want::Number,
                    least_stamp,
                };
                self.count += 1;
                TextStep::Step { words, key: None }
            }
            Err(offset) => TextStep::Unreadable {
                line: line_of(self.text, offset),
            },
        }
    }
}

/// The words after the `(` that comes next.
fn words_inside<'a>(cursor: &Cursor<'a>) -> StepWords<'a>
    ensures { (span : Span) (bytes : List ℕ) (rest : List Piece) → cursor.now ≡ token Left span bytes ∷ rest → result ≡ words_before rest }
{
    let mut inside = cursor.fork();
    let _ = inside.next();
    StepWords { cursor: inside }
}

/// Whether a word is a name.
fn is_name(word: &[u8]) -> bool
    ensures { result ≡ is_name word.now }
{
    matches!(word_kind(word), WordKind::Name)
}

/// What follows a step, or comes at the start of a text.
#[derive(Clone, Copy)]
enum Opening {
    /// The end of the text.
    End,
    /// A fault at this offset.
    Fault { offset: u32 },
    /// The `(` of a step. The next stamp after it must have at least this value.
    Open { least_stamp: u64 },
}

/// What comes next between two steps.
#[derive(Clone, Copy)]
enum Between {
    /// A stamp or a number in brackets, and what may come behind it.
    Number { next: Expected },
    /// Neither.
    Over { opening: Opening },
}

/// Reads up to the `(` of the next step, after `steps` steps.
fn open_step(text: &[u8], cursor: &mut Cursor<'_>, mut expected: Expected, steps: usize) -> Opening
    requires short { length text.now < 2 ^ 31 }
    requires within { AreWithin (length text.now) cursor.old }
    requires rests { RestsAt expected.want steps }
    ensures { IsOpening result text.now expected steps cursor.old cursor.new }
{
    'tokens: loop {
        match next_between(text, cursor, expected, steps) {
            Between::Number { next } => expected = next,
            Between::Over { opening } => return opening,
        }
    }
}

/// Reads the next token, after `steps` steps: a stamp, a number, or the `(` of the next step.
fn next_between(text: &[u8], cursor: &mut Cursor<'_>, expected: Expected, steps: usize) -> Between
    requires short { length text.now < 2 ^ 31 }
    requires within { AreWithin (length text.now) cursor.old }
    requires rests { RestsAt expected.want steps }
    ensures { IsBetweenSteps result text.now expected steps cursor.old cursor.new }
{
    let opening = match cursor.next() {
        Ok(None) => ended(expected.want, text),
        Ok(Some(token)) => match read_between(steps, expected, token.kind, token.text) {
            Some(next) => {
                if !next.want.takes_name() {
                    return Between::Number { next };
                }
                Opening::Open {
                    least_stamp: next.least_stamp,
                }
            }
            None => Opening::Fault {
                offset: token.span.start,
            },
        },
        Err(byte) => Opening::Fault { offset: byte.at },
    };
    Between::Over { opening }
}

/// What the end of a text means if no step is open.
fn ended(want: Want, text: &[u8]) -> Opening
    requires { length text.now < 2 ^ 31 }
    ensures { result ≡ ended want (length text.now) }
{
    match want {
        Want::Opening => Opening::Fault {
            offset: text.len() as u32,
        },
        _ => Opening::End,
    }
}

/// Passes the words of an open step and the `)` after them, or gives the offset of the fault.
fn pass_words(text: &[u8], cursor: &mut Cursor<'_>) -> Result<(), u32>
    requires short { length text.now < 2 ^ 31 }
    requires within { AreWithin (length text.now) cursor.old }
    ensures { IsEnding result text.now cursor.old cursor.new }
{
    let mut some = false;
    'words: loop {
        match cursor.next() {
            Ok(None) => return Err(text.len() as u32),
            Ok(Some(token)) => match taken_inside(some, token.kind, token.text) {
                Inside::Name => some = true,
                Inside::Close => return Ok(()),
                Inside::Fault => return Err(token.span.start),
            },
            Err(byte) => return Err(byte.at),
        }
    }
}

/// What a token is to an open step.
#[derive(Clone, Copy)]
enum Inside {
    /// One more of its names.
    Name,
    /// Its end.
    Close,
    /// It may not be there.
    Fault,
}

/// What a token is to an open step, which has a word already (`some`) or none.
fn taken_inside(some: bool, kind: TokenKind, text: &[u8]) -> Inside
    ensures { IsInside result some kind text.now }
{
    match kind {
        TokenKind::Left => Inside::Fault,
        TokenKind::Right => { if some { Inside::Close } else { Inside::Fault } }
        TokenKind::Word => {
            if is_name(text) {
                Inside::Name
            } else {
                Inside::Fault
            }
        }
    }
}
