//! What a node is to a core.

ghost use Rattle.std.specs.Prelude.{◌≡◌, IsTrue, OnErr, OnOk};
ghost use Rattle.node_law.specs.NodeSteps.{NodeSteps};

use crate::act::Act;
use hpf_base::{NodeId, OutOfMemory};

/// A node that passes phases. Each call's answer, and the node after it, are functions of the node, and for
/// `take` of the letter. Nothing else is known of a node.
pub trait PhasedNode: Drop {
    /// What the nodes send to each other.
    type Mail: Drop;

    ghost steps: { NodeSteps Self Self.Mail };

    /// What the node does next.
    fn next_act(&self) -> Act
        ensures { result ≡ steps.act self.now };

    /// The number of the phase that the node is in or comes to next, modulo 2^64.
    fn phase(&self) -> u64
        ensures { result ≡ steps.phase self.now };

    /// Makes the local step that `next_act` names. On want of memory the node is unchanged.
    fn local(&mut self) -> Result<(), OutOfMemory>
        requires { steps.act self.old ≡ Act.Local }
        ensures ok { OnOk result (self.new ≡ steps.after_local self.old) }
        ensures err { OnErr result (self.new ≡ self.old) };

    /// Makes the letter for the target that `next_act` names. It takes no memory.
    fn send(&mut self) -> Self::Mail
        requires { (target : NodeId) × (steps.act self.old ≡ Act.Send target) }
        ensures letter { result ≡ steps.letter self.old }
        ensures after { self.new ≡ steps.after_send self.old };

    /// Takes the letter, which is the awaited one, from the source that `next_act` names. It takes no memory.
    fn take(&mut self, mail: Self::Mail)
        requires due { (source : NodeId) × (steps.act self.old ≡ Act.Take source) }
        requires awaited { IsTrue (steps.awaits self.old mail) }
        ensures { self.new ≡ steps.after_take mail self.old };
}
