//! The lamp's domain and problem, files that are held in memory, an outlet that stops where it is made to, and flags that are waited for.

ghost use Rattle.std.specs.Prelude.{◌≡◌, false};

use commands::program::main_with;
use judge_engine::Seed;
use judge_engine::inlet::{InFault, Sources};
use judge_engine::outlet::{Failed, Outlet};
use std::alloc::{AllocError, Global};
use std::sync::Wait;
use std::sync::atomic::{AtomicBool, Ordering};
use std::thread::Threads;

pub(crate) const LAMP: &[u8] = b"(define (domain lamp)
  (:predicates (lit) (dark))
  (:action light
    :precondition (dark)
    :effect (and (lit) (not (dark)))))
";

pub(crate) const LAMP_1: &[u8] =
    b"(define (problem lamp-1) (:domain lamp) (:init (dark)) (:goal (lit)))
";

/// The words of a run over the files `domain` and `problem` and those of three planners.
pub(crate) const JUDGE: &str = "plan_judge judge --domain domain --problem problem p q r";

/// The report of that run.
pub(crate) const REPORT: &[u8] = b"domain lamp problem lamp-1
p 1 valid 1
p plans 1 valid 1 best 1
q 1 valid 1
q 2 fails at 2 (light): missing (dark)
q plans 2 valid 1 best 1
r 1 fails at 1 (fly): unknown action
r plans 1 valid 0 best -
";

/// The files of that run. There are no others.
#[derive(Drop)]
pub(crate) struct Shelf {
    pub(crate) alloc: Global,
}

impl Sources for Shelf {
    ghost use Rattle.std.specs.Prelude.{⊤};

    ghost may_hold = { λ _ _ _. ⊤ };

    fn text(&self, name: &str) -> Result<Vec<u8>, InFault> {
        let bytes: &[u8] = match name {
            "domain" => LAMP,
            "problem" => LAMP_1,
            "p" => b"(light)\n",
            "q" => b"(light)\n---\n(light) (light)\n",
            "r" => b"(fly)\n",
            _ => return Err(InFault::Unreadable),
        };
        match bytes.to_vec(self.alloc) {
            Ok(bytes) => Ok(bytes),
            Err(AllocError) => Err(InFault::OutOfMemory),
        }
    }
}

/// An outlet that takes at most `piece` bytes at a time and `room` bytes in all. Then it fails, or takes none.
#[derive(Drop)]
pub(crate) struct Narrow {
    pub(crate) taken: Vec<u8>,
    piece: usize,
    room: usize,
    fails: bool,
    failed: bool,
}

impl Narrow {
    /// An outlet that has taken nothing yet.
    pub(crate) fn new(alloc: Global, piece: usize, room: usize, fails: bool) -> Self
        ensures { result.failed ≡ false }
    {
        Narrow {
            taken: Vec::new(alloc),
            piece,
            room,
            fails,
            failed: false,
        }
    }

    /// An outlet that takes a mebibyte.
    pub(crate) fn wide(alloc: Global) -> Self
        ensures { result.failed ≡ false }
    {
        Narrow::new(alloc, 1 << 20, 1 << 20, true)
    }
}

impl Outlet for Narrow {
    ghost use Rattle.std.specs.Prelude.{Some};

    ghost taken = { λ n. Some n.taken.items };

    ghost failed = { λ n. n.failed };

    fn put(&mut self, bytes: &[u8]) -> Result<usize, Failed> {
        let count = bytes.len().min(self.piece).min(self.room);
        if count == 0 && !bytes.is_empty() {
            self.failed = true;
            return if self.fails { Err(Failed) } else { Ok(0) };
        }
        if self.taken.extend_from_slice(&bytes[..count]).is_err() {
            self.failed = true;
            return Err(Failed);
        }
        self.room -= count;
        Ok(count)
    }

    fn has_failed(&self) -> bool {
        self.failed
    }
}

/// The words of a command line, one space apart.
fn line(alloc: Global, words: &str) -> Result<Vec<String>, AllocError> {
    let mut line = Vec::new(alloc);
    for word in words.split(' ') {
        line.push(String::from_str(alloc, word)?)?;
    }
    Ok(line)
}

/// The status of a run of these words over the shelf's files; 9 if memory ran out before it.
pub(crate) fn run(
    rt: &(impl AllocGlobal + Threads + Wait + Sync),
    words: &str,
    out: &mut Narrow,
    err: &mut Narrow,
) -> u8
    requires { out.old.failed ≡ false }
{
    match line(rt.alloc(), words) {
        Ok(words) => main_with(
            rt,
            Seed::fixed(),
            words.as_slice(),
            &Shelf { alloc: rt.alloc() },
            out,
            err,
        ),
        Err(AllocError) => 9,
    }
}

/// Whether a flag is raised before it was checked two billion times, which takes a second or more: the thread that raises it may have to wait for a
/// processor.
pub(crate) fn is_raised_in_time(flag: &AtomicBool) -> bool {
    for _ in 0..2_000_000_000u32 {
        if flag.load(Ordering::SeqCst) {
            return true;
        }
    }
    false
}
