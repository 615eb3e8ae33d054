//! Names of intrinsic procedures (Fortran 95, 13; HPF 2.0, 7).

ghost use Rattle.std.specs.Prelude.{◌≡◌};
ghost use Rattle.op_tables.specs.Tables.{IsTableOf};
ghost use Rattle.op_tables.specs.Words.{intrinsic_words, code_in};

use crate::table::{Row, Table, rows};

static ROWS: [Row; 26] = rows![
    "ABS" => 0,
    "ALL" => 1,
    "ANY" => 2,
    "COUNT" => 3,
    "CSHIFT" => 4,
    "DIM" => 5,
    "IAND" => 6,
    "IEOR" => 7,
    "IOR" => 8,
    "LBOUND" => 9,
    "MAX" => 10,
    "MAXVAL" => 11,
    "MIN" => 12,
    "MINVAL" => 13,
    "MOD" => 14,
    "MODULO" => 15,
    "NOT" => 16,
    "NUMBER_OF_PROCESSORS" => 17,
    "PROCESSORS_SHAPE" => 18,
    "PRODUCT" => 19,
    "SIGN" => 20,
    "SIZE" => 21,
    "SUM" => 22,
    "SUM_PREFIX" => 23,
    "TRANSPOSE" => 24,
    "UBOUND" => 25,
];

/// The table of the names of intrinsic procedures. It takes no memory.
pub(crate) fn intrinsic_words() -> Table
    ensures { IsTableOf intrinsic_words result.rows.now }
{
    Table { rows: &ROWS }
}

/// The code of the intrinsic procedure of this name; None exactly where there is none. It takes no memory.
pub fn intrinsic_word(word: &[u8]) -> Option<u16>
    ensures { result ≡ code_in intrinsic_words word.now }
{
    intrinsic_words().code(word)
}
