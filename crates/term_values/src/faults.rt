//! Faults of statements.

use crate::stops::Cause;

/// A fault, and the number of its statement's line.
#[derive(Drop)]
pub struct Fault {
    pub line: u32,
    pub cause: Cause,
}
