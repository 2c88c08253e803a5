//! The lines of a text.

ghost use Rattle.std.specs.Prelude.{◌≡◌, ◌<◌, ◌≤◌, ◌^◌, ◌==◌, length, count_by};
ghost use Rattle.pddl_tokens.specs.Lines.{line_of};

/// The number of the line that has the byte at offset `at`, counted from 1. An LF belongs to the line that it ends.
///
/// If `at` is the text's length, this is the line of a byte that would follow. The cost is one pass over the bytes before `at`.
pub fn line_of(text: &[u8], at: u32) -> u32
    requires within { at ≤ length text.now }
    requires short { length text.now < 2 ^ 31 }
    ensures { result ≡ line_of text.now at }
{
    1 + line_ends(&text[..at as usize]) as u32
}

/// How many LFs there are.
fn line_ends(bytes: &[u8]) -> usize
    ensures count { result ≡ count_by (λ b. b == 10) bytes.now }
    ensures within { result ≤ length bytes.now }
{
    bytes.iter().filter(|b| **b == b'\n').count()
}
