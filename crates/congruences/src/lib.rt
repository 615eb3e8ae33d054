//! Arithmetic of congruences, for the owners of CYCLIC(k) sections (HPF 2.0, 3.3): which members of a regular section
//! lie in a block of a round is a congruence, and what two of them share is a common member of two progressions.
//!
//! Comes in: integers of 128 bits that are at most 2^62 in magnitude, and progressions of them. Goes out: the greatest
//! common divisor as a sum of multiples, what remains of an integer, the inverse of a factor, the least solution of a
//! congruence, and the common members of two progressions as one. What holds in between: all of it goes by one inverse
//! of natural numbers below a modulus, found by Euclid's algorithm with remainders alone, so no number is negative and
//! no product passes 128 bits. No call takes memory or refuses; None is an answer.
//!
//! *Proved:* The greatest common divisor as a sum of multiples, the least solution of a congruence, exactly where it
//! has one, and the common members of two progressions: `gcd_ext`, `solve`, `meet`. Of the program `gap_table` alone
//! uses it.
#![tactic(auto)]

mod bezout;
mod equations;
mod inverse;
mod least_strides;
mod natural_meeting;
mod progressions;
mod residues;

pub use bezout::{Bezout, gcd_ext};
pub use equations::solve;
pub use inverse::{Inverse, inverse_of};
pub use progressions::{Progression, meet};
pub use residues::residue_of;
