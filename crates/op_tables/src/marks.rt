//! Operators and delimiters without letters (Fortran 95, 3.2 and 7.1.2).

ghost use Rattle.std.specs.Prelude.{◌≡◌};
ghost use Rattle.op_tables.specs.Tables.{IsTableOf};
ghost use Rattle.op_tables.specs.Words.{symbols, code_in};

use crate::table::{Row, Table, rows};

static ROWS: [Row; 17] = rows![
    "(" => 0,
    ")" => 1,
    "*" => 2,
    "**" => 3,
    "+" => 4,
    "," => 5,
    "-" => 6,
    "/" => 7,
    "/=" => 8,
    ":" => 9,
    "::" => 10,
    "<" => 11,
    "<=" => 12,
    "=" => 13,
    "==" => 14,
    ">" => 15,
    ">=" => 16,
];

/// The table of the operators and delimiters without letters. It takes no memory.
pub fn symbols() -> Table
    ensures { IsTableOf symbols result.rows.now }
{
    Table { rows: &ROWS }
}

/// The code of the operator or delimiter that is spelled so; None exactly where there is none. It takes no memory.
pub fn symbol(spelling: &[u8]) -> Option<u16>
    ensures { result ≡ code_in symbols spelling.now }
{
    symbols().code(spelling)
}
