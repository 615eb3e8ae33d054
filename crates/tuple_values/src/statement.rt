//! Parallel statements, once the slots are known.

use crate::right::Right;
use crate::space::Space;
use crate::target::Target;
use expression_rules::Dims;
use node_code::When;
use op_tables::Made;

/// What a parallel statement does at each tuple of its space, once the slots are known. Contracts see its `statement`, and of that
/// `tuple_count`, `tuple_reads`, `tuple_left` and `tuple_outcome`.
#[derive(Drop)]
pub struct ParallelStatement<'a> {
    pub(crate) shapes: &'a [Dims],
    pub(crate) slots: &'a [i64],
    pub(crate) line: u32,
    pub(crate) space: Space,
    /// The masks, all of which a tuple has to be as it is asked for.
    pub(crate) whens: &'a [When],
    /// The rows of the copies that are read, each at the tuple's number.
    pub(crate) copies: &'a [usize],
    /// Whether a fault has its tuple.
    pub(crate) located: bool,
    pub(crate) target: Target<'a>,
    pub(crate) right: Right<'a>,
    /// What is made of the values, where something is.
    pub(crate) made: Option<Made>,
}
