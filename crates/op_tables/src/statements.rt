//! Keywords of the language's statements (Fortran 95, 3.2 and 3.3).

ghost use Rattle.std.specs.Prelude.{◌≡◌};
ghost use Rattle.op_tables.specs.Tables.{IsTableOf};
ghost use Rattle.op_tables.specs.Words.{statement_words, code_in};

use crate::table::{Row, Table, rows};

static ROWS: [Row; 24] = rows![
    "CONTINUE" => 0,
    "CYCLE" => 1,
    "DO" => 2,
    "ELSE" => 3,
    "ELSEIF" => 4,
    "ELSEWHERE" => 5,
    "END" => 6,
    "ENDDO" => 7,
    "ENDFORALL" => 8,
    "ENDIF" => 9,
    "ENDWHERE" => 10,
    "EXIT" => 11,
    "FORALL" => 12,
    "IF" => 13,
    "IMPLICIT" => 14,
    "INTEGER" => 15,
    "NONE" => 16,
    "PARAMETER" => 17,
    "PRINT" => 18,
    "PROGRAM" => 19,
    "STOP" => 20,
    "THEN" => 21,
    "WHERE" => 22,
    "WHILE" => 23,
];

/// The table of the keywords of the language's statements. It takes no memory.
pub(crate) fn statement_words() -> Table
    ensures { IsTableOf statement_words result.rows.now }
{
    Table { rows: &ROWS }
}

/// The code of the keyword that is spelled so; None exactly where there is none. It takes no memory.
pub(crate) fn statement_word(word: &[u8]) -> Option<u16>
    ensures { result ≡ code_in statement_words word.now }
{
    statement_words().code(word)
}
