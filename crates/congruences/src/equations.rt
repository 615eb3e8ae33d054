//! Congruences with one unknown.

ghost use Rattle.std.specs.Prelude.{◌≡◌, ◌+◌, ◌*◌, ◌/◌, ◌%◌, ◌≤◌, ◌<◌, ◌≤ℤ◌, pos, unsigned_abs, IfSome, IfNone};
ghost use Rattle.congruences.specs.Congruences.{DividesSide, IsSolved, residue_of};
ghost use Rattle.congruences.specs.Naturals.{IsInverse};

use crate::inverse::{Inverse, inverse_of};
use crate::residues::residue_of;

/// The least x from 0 to `m - 1` with `a * x` congruent to b by m; None exactly where the greatest common divisor of a
/// and m doesn't divide b, which is where no x solves the congruence.
///
/// m is at least 1, and no argument is greater than 2^62 in magnitude.
pub fn solve(a: i128, b: i128, m: i128) -> Option<i128>
    requires modulus { pos 1 ≤ℤ m }
    requires small_factor { unsigned_abs a ≤ 4611686018427387904 }
    requires small_side { unsigned_abs b ≤ 4611686018427387904 }
    requires small_modulus { m ≤ℤ pos 4611686018427387904 }
    ensures value { IsSolved a b (unsigned_abs m) result }
    ensures some { IfSome result (λ x. DividesSide a b m) }
    ensures none { IfNone result (DividesSide a b m → ⊥) }
{
    let modulus = m.unsigned_abs();
    let Inverse {
        divisor,
        period,
        number,
    } = inverse_of(residue_of(a, modulus), modulus);
    let side = residue_of(b, modulus);
    if side % divisor != 0 {
        return None;
    }
    Some((side / divisor % period * number % period) as i128)
}
