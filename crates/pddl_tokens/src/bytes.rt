//! The classes of bytes that a text is cut by.

ghost use Rattle.std.specs.Prelude.{◌≡◌};
ghost use Rattle.pddl_tokens.specs.Bytes.{class_of, is_word_byte};
ghost use Rattle.pddl_tokens.specs.Cut.{is_blank_class};

/// What a byte means outside comments.
#[derive(Clone, Copy, PartialEq, Eq)]
pub(crate) enum ByteClass {
    LineEnd,
    Blank,
    Left,
    Right,
    Semicolon,
    WordByte,
    Bad,
}

// The classes by one letter each, for the table.
const N: ByteClass = ByteClass::LineEnd;

const B: ByteClass = ByteClass::Blank;

const L: ByteClass = ByteClass::Left;

const R: ByteClass = ByteClass::Right;

const S: ByteClass = ByteClass::Semicolon;

const W: ByteClass = ByteClass::WordByte;

const X: ByteClass = ByteClass::Bad;

/// The class of each byte, sixteen bytes to a row.
#[rattlefmt::skip]
static CLASSES: [ByteClass; 256] = [
    X, X, X, X, X, X, X, X, X, B, N, B, B, B, X, X,
    X, X, X, X, X, X, X, X, X, X, X, X, X, X, X, X,
    B, W, W, W, W, W, W, W, L, R, W, W, W, W, W, W,
    W, W, W, W, W, W, W, W, W, W, W, S, W, W, W, W,
    W, W, W, W, W, W, W, W, W, W, W, W, W, W, W, W,
    W, W, W, W, W, W, W, W, W, W, W, W, W, W, W, W,
    W, W, W, W, W, W, W, W, W, W, W, W, W, W, W, W,
    W, W, W, W, W, W, W, W, W, W, W, W, W, W, W, X,
    X, X, X, X, X, X, X, X, X, X, X, X, X, X, X, X,
    X, X, X, X, X, X, X, X, X, X, X, X, X, X, X, X,
    X, X, X, X, X, X, X, X, X, X, X, X, X, X, X, X,
    X, X, X, X, X, X, X, X, X, X, X, X, X, X, X, X,
    X, X, X, X, X, X, X, X, X, X, X, X, X, X, X, X,
    X, X, X, X, X, X, X, X, X, X, X, X, X, X, X, X,
    X, X, X, X, X, X, X, X, X, X, X, X, X, X, X, X,
    X, X, X, X, X, X, X, X, X, X, X, X, X, X, X, X,
];

/// The class of a byte.
pub(crate) fn class_of(b: u8) -> ByteClass
    ensures { result ≡ class_of b }
{
    CLASSES[b as usize]
}

/// Whether words are made of this byte.
pub(crate) fn is_word_byte(b: u8) -> bool
    ensures { result ≡ is_word_byte b }
{
    matches!(class_of(b), ByteClass::WordByte)
}

/// Whether a byte outside comments only separates tokens.
pub(crate) fn is_blank(b: u8) -> bool
    ensures { result ≡ is_blank_class (class_of b) }
{
    matches!(class_of(b), ByteClass::LineEnd | ByteClass::Blank)
}
