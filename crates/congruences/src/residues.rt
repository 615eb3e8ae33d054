//! What remains of an integer.

ghost use Rattle.std.specs.Prelude.{◌≡◌, ◌≤◌, ◌<◌};
ghost use Rattle.congruences.specs.Congruences.{residue_of};

/// What remains of an integer by a modulus, from 0 to the modulus less 1.
///
/// The modulus is at least 1 and at most 2^62.
pub fn residue_of(number: i128, modulus: u128) -> u128
    requires some { 1 ≤ modulus }
    requires small { modulus ≤ 4611686018427387904 }
    ensures value { result ≡ residue_of number modulus }
    ensures below { result < modulus }
{
    number.rem_euclid(modulus as i128).unsigned_abs()
}
