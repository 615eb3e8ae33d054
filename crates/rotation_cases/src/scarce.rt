//! A node that wants memory.

use hpf_base::OutOfMemory;
use node_core::{Act, PhasedNode};
use std::marker::Model;

/// A node that is refused memory at each local step once, and makes it when it is asked again. Contracts see the node alone.
#[derive(Drop)]
pub struct Scarce<N: PhasedNode> {
    pub node: N,
    /// Whether memory was refused at the local step that comes next.
    pub refused: bool,
}

impl<N: PhasedNode> Model for Scarce<N> {
    ghost Value = { N };

    ghost view = { λ s. s.node };
}

impl<N: PhasedNode> PhasedNode for Scarce<N> {
    type Mail = N::Mail;

    ghost steps = { N.steps };

    fn next_act(&self) -> Act {
        self.node.next_act()
    }

    fn phase(&self) -> u64 {
        self.node.phase()
    }

    fn local(&mut self) -> Result<(), OutOfMemory> {
        if self.refused {
            self.node.local()?;
            self.refused = false;
            Ok(())
        } else {
            self.refused = true;
            Err(OutOfMemory)
        }
    }

    fn send(&mut self) -> N::Mail {
        self.node.send()
    }

    fn take(&mut self, mail: N::Mail) {
        self.node.take(mail)
    }
}
