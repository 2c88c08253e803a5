//! What single bytes mean to the check of parentheses.

ghost use Rattle.std.specs.Prelude.{◌≡◌, ◌<◌, ◌≤◌, length, slice_index};
ghost use Rattle.std.specs.List.{prefix_len};
ghost use Rattle.pddl_tokens.specs.Cut.{is_comment_byte};
ghost use Rattle.pddl_tokens.specs.Lexeme.{pieces_at};
ghost use Rattle.pddl_syntax.specs.Marks.{mark_of};

/// What a byte outside comments means to the check of parentheses.
#[derive(Clone, Copy, PartialEq, Eq)]
pub(crate) enum Mark {
    /// A blank, or a byte of a word.
    Plain,
    Left,
    Right,
    Semicolon,
    Bad,
}

// The marks by one letter each, for the table.
const P: Mark = Mark::Plain;

const L: Mark = Mark::Left;

const R: Mark = Mark::Right;

const S: Mark = Mark::Semicolon;

const X: Mark = Mark::Bad;

/// The mark of each byte, sixteen bytes to a row.
#[rattlefmt::skip]
static MARKS: [Mark; 256] = [
    X, X, X, X, X, X, X, X, X, P, P, P, P, P, X, X,
    X, X, X, X, X, X, X, X, X, X, X, X, X, X, X, X,
    P, P, P, P, P, P, P, P, L, R, P, P, P, P, P, P,
    P, P, P, P, P, P, P, P, P, P, P, S, P, P, P, P,
    P, P, P, P, P, P, P, P, P, P, P, P, P, P, P, P,
    P, P, P, P, P, P, P, P, P, P, P, P, P, P, P, P,
    P, P, P, P, P, P, P, P, P, P, P, P, P, P, P, P,
    P, P, P, P, P, P, P, P, P, P, P, P, P, P, P, X,
    X, X, X, X, X, X, X, X, X, X, X, X, X, X, X, X,
    X, X, X, X, X, X, X, X, X, X, X, X, X, X, X, X,
    X, X, X, X, X, X, X, X, X, X, X, X, X, X, X, X,
    X, X, X, X, X, X, X, X, X, X, X, X, X, X, X, X,
    X, X, X, X, X, X, X, X, X, X, X, X, X, X, X, X,
    X, X, X, X, X, X, X, X, X, X, X, X, X, X, X, X,
    X, X, X, X, X, X, X, X, X, X, X, X, X, X, X, X,
    X, X, X, X, X, X, X, X, X, X, X, X, X, X, X, X,
];

/// The mark of a byte. Parentheses, for which it is asked most, need no look into the table.
pub(crate) fn mark_of(b: u8) -> Mark
    ensures { result ≡ mark_of b }
{
    match b {
        b'(' => Mark::Left,
        b')' => Mark::Right,
        _ => MARKS[b as usize],
    }
}

/// Whether a comment goes on with this byte, so that it is no LF.
#[tactic(auto, using(crate::proofs::MarkLemmas::comment_byte_is))]
fn is_comment_byte(b: u8) -> bool
    ensures { result ≡ is_comment_byte b }
{
    b != b'\n'
}

/// How many bytes there are before the first LF.
fn comment_run(bytes: &[u8]) -> usize
    ensures run { result ≡ prefix_len is_comment_byte bytes.now }
    ensures within { result ≤ length bytes.now }
{
    bytes.iter().take_while(|b| is_comment_byte(**b)).count()
}

/// The offset after the comment that begins at a `;`.
pub(crate) fn comment_end(text: &[u8], at: usize) -> usize
    requires within { at < length text.now }
    requires begins { mark_of (slice_index text.now at) ≡ Mark.Semicolon }
    ensures same { pieces_at text.now result ≡ pieces_at text.now at }
    ensures further { at < result }
    ensures within { result ≤ length text.now }
{
    at + comment_run(&text[at..])
}
