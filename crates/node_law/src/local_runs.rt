//! What a node that makes several local steps in one call is to whoever steps it.

ghost use Rattle.node_law.specs.LocalSteps.{AreLocalSteps};

use crate::node::PhasedNode;

/// A node that makes several local steps in one call.
pub trait LocalRuns: PhasedNode {
    /// Makes local steps that take no memory, as many as it likes: none where its next act isn't a local step.
    fn run(&mut self)
        ensures { AreLocalSteps Self.steps self.old self.new };
}
