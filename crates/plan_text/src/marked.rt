//! The numbers of stamps and brackets, each before the mark that ends its word.

ghost use Rattle.std.specs.Prelude.{◌≡◌, ◌<◌, ◌^◌, IfSome};
ghost use Rattle.plan_text.specs.MarkedNumbers.{number_before};

use pddl_words::billionths;

/// The number before a mark that ends a word, in billionths; `None` if the word does not have this form.
pub(crate) fn number_before(mark: u8, word: &[u8]) -> Option<u64>
    ensures value { result ≡ number_before mark word.now }
    ensures small { IfSome result (λ value. value < 10 ^ 18) }
{
    match word.split_last() {
        Some((last, number)) if *last == mark => billionths(number),
        _ => None,
    }
}
