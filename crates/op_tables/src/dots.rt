//! Words between periods: operators and logical constants (Fortran 95, 3.2 and 7.1.2).

ghost use Rattle.std.specs.Prelude.{◌≡◌};
ghost use Rattle.op_tables.specs.Tables.{IsTableOf};
ghost use Rattle.op_tables.specs.Words.{dot_words, code_in};

use crate::table::{Row, Table, rows};

static ROWS: [Row; 13] = rows![
    ".AND." => 0,
    ".EQ." => 1,
    ".EQV." => 2,
    ".FALSE." => 3,
    ".GE." => 4,
    ".GT." => 5,
    ".LE." => 6,
    ".LT." => 7,
    ".NE." => 8,
    ".NEQV." => 9,
    ".NOT." => 10,
    ".OR." => 11,
    ".TRUE." => 12,
];

/// The table of the words between periods. It takes no memory.
pub(crate) fn dot_words() -> Table
    ensures { IsTableOf dot_words result.rows.now }
{
    Table { rows: &ROWS }
}

/// The code of the word between periods that is spelled so; None exactly where there is none. It takes no memory.
pub fn dot_word(spelling: &[u8]) -> Option<u16>
    ensures { result ≡ code_in dot_words spelling.now }
{
    dot_words().code(spelling)
}
