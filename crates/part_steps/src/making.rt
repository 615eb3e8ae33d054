//! The parts of statements.

ghost use Rattle.std.specs.Prelude.{◌≡◌};
ghost use Rattle.tuple_values.specs.Views.{statement as statement_of};
ghost use Rattle.part_steps.specs.Views.{part_view};

use crate::part::Part;
use crate::who::Who;
use comm_sets::Owners;
use tuple_values::ParallelStatement;

impl<'a> Part<'a> {
    /// The part of a statement on the nodes of these owners. It takes no memory.
    pub fn new(statement: &'a ParallelStatement<'a>, owners: &'a Owners, who: Who) -> Part<'a>
        ensures { part_view result ≡ record { who = who; nodes = owners.now.nodes; layouts = owners.now.layouts; statement = statement_of statement.now } }
    {
        // there is a node 0
        let _ = owners.nodes();
        Part {
            statement,
            owners,
            who,
        }
    }
}
