//! Words that are no names.

ghost use Rattle.std.specs.Prelude.{◌≡◌};
ghost use Rattle.op_tables.specs.Words.{is_reserved};

use crate::intrinsics::intrinsic_word;
use crate::left_out::left_out_word;
use crate::statements::statement_word;

/// Whether the word is a keyword, of the language or left out of it, or the name of an intrinsic procedure. It takes
/// no memory.
pub fn is_reserved(word: &[u8]) -> bool
    ensures { result ≡ is_reserved word.now }
{
    statement_word(word).is_some()
        || left_out_word(word).is_some()
        || intrinsic_word(word).is_some()
}
