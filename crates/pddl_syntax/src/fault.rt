//! What a reader answers when it refuses a text: which fault, and where it is.

ghost use Rattle.std.specs.Prelude.{◌≡◌};

use pddl_tokens::Span;
use std::alloc::{AllocError, AllocFailed};

/// What is wrong with a text.
#[derive(Clone, Copy, Debug, PartialEq, Eq)]
pub enum FaultKind {
    /// A byte that no text may hold outside comments, or a text of 2^31 bytes or more.
    BadText,
    /// A `)` that closes no list, or the end of the text inside a list.
    Unbalanced,
    /// A word or list that may not appear here, or a piece that is missing.
    Expected,
    /// A part of PDDL that this reader does not support.
    Unsupported,
    /// A type, constant, object, predicate or variable that is not declared.
    UnknownName,
    /// A section, part or name that appears a second time.
    Repeated,
    /// A type that is declared below itself.
    TypeCycle,
    /// An atom with another number of terms than its predicate has.
    WrongCount,
    /// A term whose type does not fit the argument.
    WrongType,
    /// A list inside 64 other lists.
    TooDeep,
    /// One name more than the limit for its kind.
    TooMany,
    /// Memory ran out.
    OutOfMemory,
}

impl FaultKind {
    ghost use Rattle.pddl_syntax.specs.FaultKind.{name_of};

    /// The kind's name, as reports print it.
    pub fn word(self) -> &'static str
        ensures { result.now ≡ name_of self }
    {
        match self {
            FaultKind::BadText => "BadText",
            FaultKind::Unbalanced => "Unbalanced",
            FaultKind::Expected => "Expected",
            FaultKind::Unsupported => "Unsupported",
            FaultKind::UnknownName => "UnknownName",
            FaultKind::Repeated => "Repeated",
            FaultKind::TypeCycle => "TypeCycle",
            FaultKind::WrongCount => "WrongCount",
            FaultKind::WrongType => "WrongType",
            FaultKind::TooDeep => "TooDeep",
            FaultKind::TooMany => "TooMany",
            FaultKind::OutOfMemory => "OutOfMemory",
        }
    }
}

/// Why a text was refused. The span covers the faulty bytes of the text; it is empty if something is missing, and 0 to 0
/// if memory ran out.
#[derive(Clone, Copy, Debug, PartialEq, Eq)]
pub struct ReadFault {
    pub kind: FaultKind,
    pub span: Span,
}

impl ReadFault {
    ghost use Rattle.pddl_syntax.specs.ReadFault.{fault};

    /// The fault of this kind at these bytes.
    pub fn new(kind: FaultKind, span: Span) -> Self
        ensures { result ≡ record { kind = kind; span = span } }
    {
        ReadFault { kind, span }
    }

    /// The fault at the bytes from `start` up to `end`.
    pub fn at(kind: FaultKind, start: u32, end: u32) -> Self
        ensures { result ≡ fault kind start end }
    {
        ReadFault {
            kind,
            span: Span { start, end },
        }
    }
}

impl From<AllocError> for ReadFault {
    ghost use Rattle.pddl_syntax.specs.ReadFault.{out_of_memory};

    ghost from_gives = { λ _ e. e ≡ out_of_memory };

    fn from(_error: AllocError) -> ReadFault {
        ReadFault::at(FaultKind::OutOfMemory, 0, 0)
    }
}

impl<T: Drop> From<AllocFailed<T>> for ReadFault {
    ghost use Rattle.pddl_syntax.specs.ReadFault.{out_of_memory};

    ghost from_gives = { λ _ e. e ≡ out_of_memory };

    fn from(_error: AllocFailed<T>) -> ReadFault {
        ReadFault::at(FaultKind::OutOfMemory, 0, 0)
    }
}
