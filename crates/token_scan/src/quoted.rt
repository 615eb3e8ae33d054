//! Character constants (Fortran 95, 4.3.2.1).

ghost use Rattle.std.specs.Prelude.{MatchOption};
ghost use Rattle.token_scan.specs.Pieces.{IsQuoted, NoneQuoted};

use crate::run::{Run, run_len};

/// The bytes between a delimiter at the front and the next one.
pub(crate) fn quoted(delimiter: u8, bytes: &[u8]) -> Option<&[u8]>
    ensures { MatchOption result (NoneQuoted delimiter bytes.now) (λ run. IsQuoted delimiter bytes.now run.now) }
{
    let (first, rest) = bytes.split_first()?;
    if *first != delimiter {
        return None;
    }
    let len = run_len(Run::Without(delimiter), rest);
    if len == rest.len() {
        return None;
    }
    Some(&rest[..len])
}
