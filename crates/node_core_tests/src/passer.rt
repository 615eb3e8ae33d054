//! A node that passes its number on.

ghost use Rattle.node_core_tests.specs.Passer.{passer_steps};

use hpf_base::OutOfMemory;
use node_core::{Act, NodeId, PhasedNode};

/// A node of the ring of three. `turn` is its step of the first phase, and 3 after it.
#[derive(Drop)]
pub struct Passer {
    pub next: u32,
    pub before: u32,
    pub turn: u8,
    pub phase: u64,
    pub number: u64,
}

impl PhasedNode for Passer {
    type Mail = u64;

    ghost steps = { passer_steps };

    fn next_act(&self) -> Act {
        if self.turn == 0 {
            Act::Local
        } else if self.turn == 1 {
            Act::Send(NodeId(self.next))
        } else if self.turn == 2 {
            Act::Take(NodeId(self.before))
        } else if self.phase == 6 {
            Act::Done
        } else if self.next == 1 {
            Act::Send(NodeId(1))
        } else if self.next == 2 {
            Act::Take(NodeId(0))
        } else {
            Act::Local
        }
    }

    fn phase(&self) -> u64 {
        self.phase
    }

    fn local(&mut self) -> Result<(), OutOfMemory> {
        if self.turn == 0 {
            self.turn = 1;
        } else {
            self.phase = self.phase.wrapping_add(1);
        }
        Ok(())
    }

    fn send(&mut self) -> u64 {
        if self.turn == 1 {
            self.turn = 2;
        } else {
            self.phase = self.phase.wrapping_add(1);
        }
        self.number
    }

    fn take(&mut self, mail: u64) {
        self.turn = 3;
        self.phase = self.phase.wrapping_add(1);
        self.number = mail;
    }
}
