//! The lines of a replay: what an intake answered, one answer on each line.
ghost use Rattle.std.specs.Prelude.{◌≡◌, ◌++◌, IfOk, OnOk, codes, decimal};
ghost use Rattle.intake_rules.specs.Refusals.{refusal_word};
ghost use Rattle.judge_engine.specs.ReplayText.{refusal_number, reply_text, reply_line, reply_lines};

use intake_core::{Refusal, Reply, ReplyList};
use report_text::{Text, push_finding};
use std::alloc::{AllocError, Global};
use strips_task::Task;

/// The lines of all replies.
pub(crate) fn text_of(alloc: Global, task: &Task, replies: &ReplyList) -> Result<Text, AllocError>
    ensures { IfOk result (λ text. text ≡ reply_lines task.now replies.now) }
{
    let mut text = Text::new(alloc);
    push_replies(&mut text, task, replies.as_slice())?;
    Ok(text)
}

/// Adds the lines of replies.
fn push_replies(text: &mut Text, task: &Task, replies: &[Reply]) -> Result<(), AllocError>
    ensures { OnOk result (text.new ≡ text.old ++ reply_lines task.now replies.now) }
{
    for reply in replies {
        push_line(text, task, reply)?;
    }
    Ok(())
}

/// Adds the line of a reply.
fn push_line(text: &mut Text, task: &Task, reply: &Reply) -> Result<(), AllocError>
    ensures { OnOk result (text.new ≡ text.old ++ reply_line task.now reply.now) }
{
    push_reply(text, task, reply)?;
    text.push(b"\n")
}

/// Adds what is answered.
fn push_reply(text: &mut Text, task: &Task, reply: &Reply) -> Result<(), AllocError>
    ensures { OnOk result (text.new ≡ text.old ++ reply_text task.now reply.now) }
{
    match reply {
        Reply::Accepted(job) => push_with_number(text, b"accepted ", *job),
        Reply::ClosedNow => text.push(b"closed"),
        Reply::Taken(job) => push_with_number(text, b"took ", *job),
        Reply::NoJob => text.push(b"none"),
        Reply::Returned => text.push(b"returned"),
        Reply::Finished => text.push(b"finished"),
        Reply::Emitted(finding) => {
            push_with_number(text, b"emitted ", finding.job.number)?;
            text.push(b" ")?;
            push_finding(text, task, finding)
        }
        Reply::Refused(why) => push_refusal(text, *why),
    }
}

/// Adds words, followed by a number.
fn push_with_number(text: &mut Text, words: &[u8], number: u32) -> Result<(), AllocError>
    ensures { OnOk result (text.new ≡ text.old ++ words.now ++ decimal number) }
{
    text.push(words)?;
    text.push_number(number as usize)
}

/// Adds why something was refused.
fn push_refusal(text: &mut Text, why: Refusal) -> Result<(), AllocError>
    ensures { OnOk result (text.new ≡ text.old ++ codes "refused " ++ refusal_word why ++ refusal_number why) }
{
    text.push(b"refused ")?;
    text.push(why.word().as_bytes())?;
    match why {
        Refusal::NotReady(job) => push_with_number(text, b" ", job),
        _ => Ok(()),
    }
}
