//! Where a report goes: an outlet takes bytes, some at a time, or fails.
//!
//! [`write_report`] hands a whole report to an [`Outlet`]. [`Sink`] makes an outlet of any writer of the standard library, and tests
//! make outlets of their own that fail on purpose.
ghost use Rattle.std.specs.Prelude.{◌≡◌, ◌<◌, ◌≤◌, ◌||◌, ℕ, Bool, List, Option, length, take, false, true, IfOk, IfErr, OnOk};
ghost use Rattle.std.specs.Io.KnownBytes.{WriteAppends, Appends};
ghost use Rattle.judge_engine.specs.Outlet.{put_fails};

use crate::report::Report;
use std::io::Write;

/// An outlet did not take the bytes.
#[derive(Clone, Copy, Debug, PartialEq, Eq)]
pub struct Failed;

/// What takes bytes in order, some at a time.
pub trait Outlet {
    // The bytes that were taken, if the outlet says.
    ghost taken: { Self → Option (List ℕ) };

    // Whether a put has failed, or took none of the bytes although there were some.
    ghost failed: { Self → Bool };

    /// Takes bytes from the front of those handed in, and answers how many it took.
    fn put(&mut self, bytes: &[u8]) -> Result<usize, Failed>
        ensures bound { IfOk result (λ count. count ≤ length bytes.now) }
        ensures bytes { WriteAppends (taken self.old) (taken self.new) result bytes.now }
        ensures failure { failed self.new ≡ (failed self.old || put_fails result bytes.now) };

    /// Whether a put has failed, or took none of the bytes although there were some.
    fn has_failed(&self) -> bool
        ensures { result ≡ failed self.now };

    /// Whether a person sees the bytes on a terminal, so that they may have colours.
    fn is_terminal(&self) -> bool {
        false
    }
}

/// A writer of the standard library as an outlet. Any error of the writer is [`Failed`].
#[derive(Drop)]
pub struct Sink<W> {
    writer: W,
    failed: bool,
    is_terminal: bool,
}

impl<W: Write> Sink<W> {
    /// An outlet to which nothing was written yet.
    pub fn new(writer: W) -> Self
        ensures unused { ⟦<Sink<W> as Outlet>⟧.failed result ≡ false }
        ensures bytes { ⟦<Sink<W> as Outlet>⟧.taken result ≡ W.contents writer }
    {
        Sink {
            writer,
            failed: false,
            is_terminal: false,
        }
    }

    /// The same outlet, which may be a terminal.
    pub fn on_terminal(self, is_terminal: bool) -> Self
        ensures failed { ⟦<Sink<W> as Outlet>⟧.failed result ≡ ⟦<Sink<W> as Outlet>⟧.failed self }
        ensures bytes { ⟦<Sink<W> as Outlet>⟧.taken result ≡ ⟦<Sink<W> as Outlet>⟧.taken self }
    {
        Sink {
            writer: self.writer,
            failed: self.failed,
            is_terminal,
        }
    }
}

impl<W: Write> Outlet for Sink<W> {
    ghost taken = { λ s. W.contents s.writer };

    ghost failed = { λ s. s.failed };

    fn put(&mut self, bytes: &[u8]) -> Result<usize, Failed> {
        match self.writer.write(bytes) {
            Ok(count) => {
                if count == 0 && !bytes.is_empty() {
                    self.failed = true;
                }
                Ok(count)
            }
            Err(_) => {
                self.failed = true;
                Err(Failed)
            }
        }
    }

    fn has_failed(&self) -> bool {
        self.failed
    }

    fn is_terminal(&self) -> bool {
        self.is_terminal
    }
}

/// A report that could not be written whole.
#[derive(Clone, Copy, Debug, PartialEq, Eq)]
pub struct WriteFault {
    /// How many bytes of the report went out, from its front.
    pub written: u64,
}

/// Writes a report to an outlet, put by put, until all its bytes are taken. Takes no memory.
///
/// A put that fails, or takes none of the bytes left, is a fault; exactly the first `written` bytes of the report went out then.
pub fn write_report<O: Outlet>(report: &Report, outlet: &mut O) -> Result<(), WriteFault>
    requires { O.failed outlet.old ≡ false }
    ensures whole { OnOk result (Appends (O.taken outlet.old) (O.taken outlet.new) report.now) }
    ensures no_failure { OnOk result (O.failed outlet.new ≡ false) }
    ensures front { IfErr result (λ fault. Appends (O.taken outlet.old) (O.taken outlet.new) (take fault.written report.now)) }
    ensures short { IfErr result (λ fault. fault.written < length report.now) }
    ensures failure { IfErr result (λ _. O.failed outlet.new ≡ true) }
{
    write_bytes(report.bytes(), outlet)
}

/// Writes bytes to an outlet, as `write_report` does.
pub fn write_bytes<O: Outlet>(bytes: &[u8], outlet: &mut O) -> Result<(), WriteFault>
    requires { O.failed outlet.old ≡ false }
    ensures whole { OnOk result (Appends (O.taken outlet.old) (O.taken outlet.new) bytes.now) }
    ensures no_failure { OnOk result (O.failed outlet.new ≡ false) }
    ensures front { IfErr result (λ fault. Appends (O.taken outlet.old) (O.taken outlet.new) (take fault.written bytes.now)) }
    ensures short { IfErr result (λ fault. fault.written < length bytes.now) }
    ensures failure { IfErr result (λ _. O.failed outlet.new ≡ true) }
{
    let mut written = 0;
    while written < bytes.len() {
        match outlet.put(&bytes[written..]) {
            Ok(0) => return Err(fault_at(written)),
            Ok(count) => written += count,
            Err(Failed) => return Err(fault_at(written)),
        }
    }
    Ok(())
}

/// The fault of a report of which `written` bytes went out.
fn fault_at(written: usize) -> WriteFault
    ensures { result.written ≡ written }
{
    WriteFault {
        written: written as u64,
    }
}
