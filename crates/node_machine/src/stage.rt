//! Where a node stands in an instruction.

/// Before an instruction or a step of it, in one of its phases, or after that phase.
#[derive(Clone, Copy, PartialEq, Eq)]
pub enum Stage {
    Ready,
    Passing,
    Passed,
}
