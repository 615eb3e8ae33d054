//! Parts: statements with who computes their tuples.

ghost use Rattle.std.specs.Prelude.{◌≤◌};

use crate::who::Who;
use comm_sets::Owners;
use tuple_values::ParallelStatement;

/// A statement on the nodes, with who computes its tuples. Contracts see it by `part_view`.
#[derive(Drop)]
pub struct Part<'a> {
    pub(crate) statement: &'a ParallelStatement<'a>,
    pub(crate) owners: &'a Owners,
    pub(crate) who: Who,
    ghost some: { 1 ≤ owners.now.nodes },
}
