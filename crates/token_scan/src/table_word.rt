//! Words of a table at the front of bytes.

ghost use Rattle.std.specs.Prelude.{◌≡◌, MatchOption};
ghost use Rattle.op_tables.specs.Words.{code_in};
ghost use Rattle.token_scan.specs.Pieces.{IsLongestWord, NoWordLonger, most_bytes, words_of};

use op_tables::{dot_word, symbol};

/// A table of words.
#[derive(Clone, Copy)]
pub(crate) enum Words {
    /// The words between periods.
    Dots,
    /// The operators and delimiters without letters.
    Symbols,
}

/// The most bytes of a word between periods.
pub(crate) const MAX_DOT_BYTES: usize = 7;

/// The most bytes of an operator or delimiter.
pub(crate) const MAX_SYMBOL_BYTES: usize = 2;

/// The most bytes of a word of the table.
fn most_bytes(words: Words) -> usize
    ensures { result ≡ most_bytes words }
{
    match words {
        Words::Dots => MAX_DOT_BYTES,
        Words::Symbols => MAX_SYMBOL_BYTES,
    }
}

/// The code of a word, if it is in the table.
fn code_of(words: Words, word: &[u8]) -> Option<u16>
    ensures { result ≡ code_in (words_of words) word.now }
{
    match words {
        Words::Dots => dot_word(word),
        Words::Symbols => symbol(word),
    }
}

/// The length and the code of the longest front that is a word of the table.
pub(crate) fn longest_word(words: Words, bytes: &[u8]) -> Option<(usize, u16)>
    ensures { MatchOption result (NoWordLonger (words_of words) bytes.now 0) (λ x. IsLongestWord (words_of words) bytes.now x.0 x.1) }
{
    let mut len = bytes.len().min(most_bytes(words));
    while len > 0 {
        if let Some(code) = code_of(words, &bytes[..len]) {
            return Some((len, code));
        }
        len -= 1;
    }
    None
}
