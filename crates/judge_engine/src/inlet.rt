//! Where texts come from: files by name, read whole.
//!
//! [`Sources`] gives the text of a file; [`Files`] does so for the real ones. A file is read through an [`Inlet`], at most one byte past
//! the limit, so that a run can say that it is too large, and a pipe is read like any file.
ghost use Rattle.std.specs.Prelude.{◌≡◌, ◌↔◌, ◌+◌, ◌≤◌, ◌||◌, ⊤, ℕ, Bool, true, false, List, Option, length, take, IfOk, IfSome};
ghost use Rattle.std.specs.Io.KnownBytes.{ReadConsumes, Consumes, IsAtEnd};
ghost use Rattle.judge_engine.specs.Inlet.{get_fails};
ghost use Rattle.judge_engine.specs.Inlet.{file_named};
ghost use Rattle.judge_engine.specs.declared.inlet.InFault.TheVariants.{Unreadable, OutOfMemory};
ghost use Rattle.judge_engine.specs.Answer.{file_limit};

use crate::outlet::Failed;
use std::alloc::Global;
use std::fs;
use std::io::{ErrorKind, Read};

/// The greatest number of bytes of a file that a run takes.
pub const FILE_LIMIT: usize = 16_777_216;

/// The word for standard input among the files of a command line. A file of that name is `./-`.
pub const STANDARD_INPUT: &str = "-";

/// The file of standard input.
const STANDARD_INPUT_FILE: &str = "/dev/stdin";

/// How many bytes are asked for at a time.
const PIECE: usize = 65_536;

/// Why a text could not be read.
#[derive(Clone, Copy, Debug, PartialEq, Eq)]
pub enum InFault {
    /// The file is not there, or reading it failed.
    Unreadable,
    /// Memory ran out.
    OutOfMemory,
}

/// Why a file cannot be read, as far as the system says it.
#[derive(Clone, Copy, Debug, PartialEq, Eq)]
pub enum Absence {
    /// There is no file with that name.
    Missing,
    /// It is a folder.
    Folder,
    /// The system does not allow it to be read.
    Forbidden,
    /// Something else.
    Other,
}

/// What gives the texts that a command line names.
pub trait Sources {
    // Whether the text with a name may be these bytes.
    ghost may_hold: { Self → List ℕ → List ℕ → Type 0 };

    /// The text with a name, or its first 16,777,217 bytes if there are more.
    fn text(&self, name: &str) -> Result<Vec<u8>, InFault>
        ensures { IfOk result (λ bytes. may_hold self.now name.now bytes.items) };

    /// Why the text with a name can't be read.
    fn absence(&self, _name: &str) -> Absence {
        Absence::Other
    }
}

/// What gives bytes in order, some at a time.
pub trait Inlet {
    // The bytes that are still to come, if the inlet says.
    ghost left: { Self → Option (List ℕ) };

    // Whether a get has failed.
    ghost failed: { Self → Bool };

    /// Puts bytes at the front of a buffer, and answers how many. 0 for a buffer that is not empty is the end, and no failure.
    fn get(&mut self, buffer: &mut [u8]) -> Result<usize, Failed>
        ensures bound { IfOk result (λ count. count ≤ length buffer.new) }
        ensures bytes { ReadConsumes (left self.old) (left self.new) result buffer.new }
        ensures failure { failed self.new ≡ (failed self.old || get_fails result) };

    /// Whether a get has failed.
    fn has_failed(&self) -> bool
        ensures { result ≡ failed self.now };

    /// How many bytes will probably come, for which memory is taken at once. More or fewer may come; nothing but speed depends on it.
    fn expected(&self) -> usize {
        0
    }
}

/// A reader of the standard library as an inlet. Any error of the reader is [`Failed`], an interrupted read too.
#[derive(Drop)]
pub struct Feed<R> {
    reader: R,
    failed: bool,
    expected: usize,
}

impl<R: Read> Feed<R> {
    /// An inlet from which nothing was read yet.
    pub fn new(reader: R) -> Self
        ensures unused { ⟦<Feed<R> as Inlet>⟧.failed result ≡ false }
        ensures bytes { ⟦<Feed<R> as Inlet>⟧.left result ≡ R.remaining reader }
    {
        Feed::with_size(reader, 0)
    }

    /// An inlet from which nothing was read yet, and from which probably as many bytes will come as `expected` says.
    pub fn with_size(reader: R, expected: usize) -> Self
        ensures unused { ⟦<Feed<R> as Inlet>⟧.failed result ≡ false }
        ensures bytes { ⟦<Feed<R> as Inlet>⟧.left result ≡ R.remaining reader }
    {
        Feed {
            reader,
            failed: false,
            expected,
        }
    }
}

impl<R: Read> Inlet for Feed<R> {
    ghost left = { λ s. R.remaining s.reader };

    ghost failed = { λ s. s.failed };

    fn get(&mut self, buffer: &mut [u8]) -> Result<usize, Failed> {
        match self.reader.read(buffer) {
            Ok(count) => Ok(count),
            Err(_) => {
                self.failed = true;
                Err(Failed)
            }
        }
    }

    fn has_failed(&self) -> bool {
        self.failed
    }

    fn expected(&self) -> usize {
        self.expected
    }
}

/// The bytes of an inlet up to its end, or the first 16,777,217 if there are more.
///
/// It is refused as unreadable exactly if a get has failed.
pub fn read_file<I: Inlet>(alloc: Global, inlet: &mut I) -> Result<Vec<u8>, InFault>
    requires { I.failed inlet.old ≡ false }
    ensures limit { IfOk result (λ bytes. length bytes.items ≤ file_limit + 1) }
    ensures text { IfOk result (λ bytes. IfSome (I.left inlet.old) (λ all. bytes.items ≡ take (file_limit + 1) all)) }
    ensures failure { (result ≡ Err InFault.Unreadable) ↔ (I.failed inlet.new ≡ true) }

    // Afterwards the bytes are gone from the inlet, which is at its end if they are within the limit.
    ensures given { IfOk result (λ bytes. Consumes (I.left inlet.old) (I.left inlet.new) bytes.items) }
    ensures ended { IfOk result (λ bytes. length bytes.items ≤ file_limit → IsAtEnd (I.left inlet.new)) }
{
    let Ok(mut bytes) = Vec::with_capacity(alloc, inlet.expected().min(FILE_LIMIT + 1)) else {
        return Err(InFault::OutOfMemory);
    };
    let mut piece = [0u8; PIECE];
    'pieces: while bytes.len() <= FILE_LIMIT {
        let room = (FILE_LIMIT + 1 - bytes.len()).min(PIECE);
        let Ok(count) = inlet.get(&mut piece[..room]) else {
            return Err(InFault::Unreadable);
        };
        if count == 0 {
            return Ok(bytes);
        }
        if bytes.extend_from_slice(&piece[..count]).is_err() {
            return Err(InFault::OutOfMemory);
        }
    }
    Ok(bytes)
}

/// The file that a word of the command line names.
pub fn file_named(name: &str) -> &str
    ensures { result.now ≡ file_named name.now }
{
    if name == STANDARD_INPUT {
        STANDARD_INPUT_FILE
    } else {
        name
    }
}

/// The real files.
#[derive(Clone, Copy)]
pub struct Files<'a, R> {
    runtime: &'a R,
}

impl<'a, R: std::rt::Files + AllocGlobal> Files<'a, R> {
    /// The files of a runtime.
    pub fn new(runtime: &'a R) -> Self {
        Files { runtime }
    }
}

impl<R: std::rt::Files + AllocGlobal> Sources for Files<'_, R> {
    // Nothing is known about what a file holds.
    ghost may_hold = { λ _ _ _. ⊤ };

    fn text(&self, name: &str) -> Result<Vec<u8>, InFault> {
        let Ok(file) = fs::open(self.runtime, name) else {
            return Err(InFault::Unreadable);
        };
        let expected = match fs::metadata(self.runtime, name) {
            Ok(metadata) => usize::try_from(metadata.len()).unwrap_or(0),
            Err(_) => 0,
        };
        read_file(self.runtime.alloc(), &mut Feed::with_size(file, expected))
    }

    fn absence(&self, name: &str) -> Absence {
        match fs::metadata(self.runtime, name) {
            Ok(metadata) if metadata.is_dir() => Absence::Folder,
            Ok(_) => Absence::Forbidden,
            Err(error) => match error.kind() {
                ErrorKind::NotFound => Absence::Missing,
                ErrorKind::PermissionDenied => Absence::Forbidden,
                _ => Absence::Other,
            },
        }
    }
}
