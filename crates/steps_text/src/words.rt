//! The words of a line, one at a time.
ghost use Rattle.std.specs.Prelude.{◌≡◌, ◌<◌, ◌≤◌, length, IfSome};
ghost use Rattle.std.specs.List.{list_all, position, position_or_len};
ghost use Rattle.steps_text.specs.Words.{without_crs, without_spaces, first_word, behind_word, is_space, is_no_space};

/// The line without the CRs at its end.
pub(crate) fn without_crs(line: &[u8]) -> &[u8]
    ensures { result.now ≡ without_crs line.now }
{
    let mut end = line.len();
    while end > 0 && line[end - 1] == b'\r' {
        end -= 1;
    }
    &line[..end]
}

/// The first word of a line, and what follows it. The word is empty if the line has none.
#[tactic(auto, unfolding(crate::specs::Words::first_word, crate::specs::Words::behind_word))]
pub(crate) fn split_word(line: &[u8]) -> (&[u8], &[u8])
    ensures word { result.0.now ≡ first_word line.now }
    ensures behind { result.1.now ≡ behind_word line.now }
{
    let words = without_spaces(line);
    words.split_at(word_len(words))
}

/// The line without the spaces and tabs before its first word.
#[tactic(auto, unfolding(crate::specs::Words::without_spaces))]
fn without_spaces(line: &[u8]) -> &[u8]
    ensures { result.now ≡ without_spaces line.now }
{
    match first_word_byte(line) {
        Some(start) => &line[start..],
        None => &[],
    }
}

/// Where the first word begins.
fn first_word_byte(line: &[u8]) -> Option<usize>
    ensures start { result ≡ position is_no_space line.now }
    ensures within { IfSome result (λ start. start < length line.now) }
{
    line.iter().position(|b| !is_space(*b))
}

/// The length of the word that begins a line.
fn word_len(words: &[u8]) -> usize
    ensures length { result ≡ position_or_len is_space words.now }
    ensures within { result ≤ length words.now }
{
    match first_space(words) {
        Some(end) => end,
        None => words.len(),
    }
}

/// Where the first space or tab is.
fn first_space(line: &[u8]) -> Option<usize>
    ensures at { result ≡ position is_space line.now }
    ensures within { IfSome result (λ at. at < length line.now) }
{
    line.iter().position(|b| is_space(*b))
}

/// Whether a line has no word.
pub(crate) fn is_bare(line: &[u8]) -> bool
    ensures { result ≡ list_all is_space line.now }
{
    line.iter().all(|b| is_space(*b))
}

/// Whether a byte separates words.
fn is_space(b: u8) -> bool
    ensures { result ≡ is_space b }
{
    b == b' ' || b == b'\t'
}
