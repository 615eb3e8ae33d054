//! The value of a literal.

ghost use Rattle.std.specs.Prelude.{◌≤◌, ◌^◌, IsTrue, MatchOption};
ghost use Rattle.std.specs.Str.{all_ascii_digits};
ghost use Rattle.std.specs.Str.Parse.{digits_value};
ghost use Rattle.token_scan.specs.Pieces.{IsValue};

/// One digit more takes this value past 2^63 - 1.
const FULL: u64 = 1 << 60;

/// The number that digits stand for; None exactly where it is above 2^63 - 1.
pub(crate) fn value_of(digits: &[u8]) -> Option<i64>
    requires { IsTrue (all_ascii_digits digits.now) }
    ensures { MatchOption result (2 ^ 63 ≤ digits_value 10 digits.now) (IsValue digits.now) }
{
    let mut value: u64 = 0;
    for digit in digits {
        if value >= FULL {
            return None;
        }
        value = value * 10 + u64::from(*digit - b'0');
    }
    if value <= i64::MAX as u64 {
        Some(value as i64)
    } else {
        None
    }
}
