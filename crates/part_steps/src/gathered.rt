//! What a node has after the phase of a part.

ghost use Rattle.std.specs.Prelude.{◌<◌};
ghost use Rattle.part_steps.specs.Exchanged.{IsExchange};
ghost use Rattle.part_steps.specs.Views.{part_view};

use crate::part::Part;
use comm_sets::Exchange;
use letters::Body;
use owner_tables::Row;

/// The values of elements on a node after the phase of a part: its own, or received. Contracts see it by `after_of`.
#[derive(Drop)]
pub(crate) struct Gathered<'a> {
    pub(crate) part: &'a Part<'a>,
    pub(crate) id: u32,
    pub(crate) pieces: &'a [Row],
    /// The values that the node received from each node.
    pub(crate) received: &'a [Body],
    pub(crate) exchange: &'a Exchange,
    ghost node: { id < part.now.owners.now.nodes },
    ghost exchanged: { IsExchange (part_view part.now) id exchange.now },
}
