//! Keywords of statements that the language leaves out (Fortran 95, 3.2 and 3.3).

ghost use Rattle.std.specs.Prelude.{◌≡◌};
ghost use Rattle.op_tables.specs.Tables.{IsTableOf};
ghost use Rattle.op_tables.specs.Words.{left_out_words, code_in};

use crate::table::{Row, Table, rows};

static ROWS: [Row; 47] = rows![
    "ALLOCATABLE" => 0,
    "ALLOCATE" => 1,
    "BACKSPACE" => 2,
    "CALL" => 3,
    "CASE" => 4,
    "CHARACTER" => 5,
    "CLOSE" => 6,
    "COMMON" => 7,
    "COMPLEX" => 8,
    "CONTAINS" => 9,
    "DATA" => 10,
    "DEALLOCATE" => 11,
    "DIMENSION" => 12,
    "DOUBLE" => 13,
    "ENTRY" => 14,
    "EQUIVALENCE" => 15,
    "EXTERNAL" => 16,
    "FORMAT" => 17,
    "FUNCTION" => 18,
    "GO" => 19,
    "GOTO" => 20,
    "INCLUDE" => 21,
    "INQUIRE" => 22,
    "INTENT" => 23,
    "INTERFACE" => 24,
    "INTRINSIC" => 25,
    "LOGICAL" => 26,
    "MODULE" => 27,
    "NAMELIST" => 28,
    "NULLIFY" => 29,
    "OPEN" => 30,
    "OPTIONAL" => 31,
    "POINTER" => 32,
    "PRIVATE" => 33,
    "PUBLIC" => 34,
    "READ" => 35,
    "REAL" => 36,
    "RECURSIVE" => 37,
    "RETURN" => 38,
    "REWIND" => 39,
    "SAVE" => 40,
    "SELECT" => 41,
    "SUBROUTINE" => 42,
    "TARGET" => 43,
    "TYPE" => 44,
    "USE" => 45,
    "WRITE" => 46,
];

/// The table of the keywords of statements that are left out. It takes no memory.
pub(crate) fn left_out_words() -> Table
    ensures { IsTableOf left_out_words result.rows.now }
{
    Table { rows: &ROWS }
}

/// The code of the keyword that is spelled so; None exactly where there is none. It takes no memory.
pub fn left_out_word(word: &[u8]) -> Option<u16>
    ensures { result ≡ code_in left_out_words word.now }
{
    left_out_words().code(word)
}
