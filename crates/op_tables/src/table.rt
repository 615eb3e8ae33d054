//! Tables of words.

ghost use Rattle.std.specs.Prelude.{◌≡◌, ℕ, List};
ghost use Rattle.std.specs.Option.{option_copied};
ghost use Rattle.op_tables.specs.Tables.{row_of, IsTableOf};
ghost use Rattle.op_tables.specs.Words.{code_in};

/// A word, in upper case, and its code: in the tables of this crate its place, from 0.
#[derive(Clone, Copy)]
pub struct Row {
    pub spelling: &'static str,
    pub code: u16,
}

/// A table of words. In the tables of this crate the spellings are distinct and ascend in the order of bytes.
#[derive(Clone, Copy)]
pub struct Table {
    pub rows: &'static [Row],
}

impl Table {
    /// The row with this spelling; None exactly where there is none. It takes no memory.
    pub fn find(&self, word: &str) -> Option<&'static Row>
        ensures { option_copied result ≡ row_of self.now.rows.now word.now }
    {
        find_row(self.rows, word.as_bytes())
    }

    /// The code of the row with this spelling; None exactly where there is none. Where the rows are the table of some
    /// words it is the word's code among them. It takes no memory.
    pub fn code(&self, word: &[u8]) -> Option<u16>
        ensures { (words : List (List ℕ)) → IsTableOf words self.now.rows.now → result ≡ code_in words word.now }
    {
        find_row(self.rows, word).map(|row| row.code)
    }
}

/// The row with this spelling; None exactly where there is none.
fn find_row<'a>(rows: &'a [Row], spelling: &[u8]) -> Option<&'a Row>
    ensures { option_copied result ≡ row_of rows.now spelling.now }
{
    rows.iter().find(|row| row.spelling.as_bytes() == spelling)
}

/// Rows, from words and their codes.
macro_rules! rows {
    ($($spelling:literal => $code:literal,)*) => {
        [$(Row { spelling: $spelling, code: $code }),*]
    };
}

pub(crate) use rows;
