//! What of a run on nodes may be sent to threads.

ghost use Rattle.node_machine.specs.contracts.node.Node.{the_row};
ghost use denote.Param.Send.{IsSend};

/// A node may be sent to a thread, with all that it holds and what it shares with other nodes.
pub fn nodes_may_be_sent()
    ensures { IsSend the_row }
{}
