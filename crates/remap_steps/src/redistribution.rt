//! Redistributions on a node.

ghost use Rattle.std.specs.Prelude.{◌≡◌, ◌<◌, IfOk, IsTrue, length};
ghost use Rattle.machine_steps.specs.Layout.{sizes};
ghost use Rattle.remap_steps.specs.Redistributions.{all_rounds};

use comm_sets::{Messages, Owners, Rounds, remap_outgoing, remap_rounds};
use hpf_base::OutOfMemory;
use std::alloc::Global;
use std::marker::Model;

/// A redistribution on one node, with its rounds and what the node sends to each node. Contracts see the layouts before and after it, the
/// number of nodes and that of the node.
#[derive(Drop)]
pub struct Redistribution {
    pub(crate) before: Owners,
    pub(crate) after: Owners,
    pub(crate) id: u32,
    pub(crate) rounds: Rounds,
    pub(crate) outgoing: Messages,
}

impl Model for Redistribution {
    ghost use Rattle.remap_steps.specs.Redistributions.{Redistribution as View};

    ghost Value = { View };

    ghost use Rattle.remap_steps.specs.Made.{IsMade, view_of};

    ghost view = { view_of };

    ghost invariant = { IsMade };
}

impl Redistribution {
    /// The redistribution between these owners, on the node with this number.
    pub fn new(
        alloc: Global,
        before: &Owners,
        after: &Owners,
        id: u32,
    ) -> Result<Redistribution, OutOfMemory>
        requires nodes { before.now.nodes ≡ after.now.nodes }
        requires sizes { sizes before.now.layouts ≡ sizes after.now.layouts }
        requires node { id < before.now.nodes }
        ensures { IfOk result (λ r. r ≡ record { nodes = before.now.nodes; old = before.now.layouts; new = after.now.layouts; id = id }) }
    {
        let rounds = remap_rounds(alloc, before, after)?;
        let outgoing = remap_outgoing(alloc, before, after, id)?;
        let before = before.shared()?;
        let after = after.shared()?;
        Ok(Redistribution {
            before,
            after,
            id,
            rounds,
            outgoing,
        })
    }

    /// The same, where one is held from an earlier round: the one that is held, if it is this one, and else a new one.
    pub fn held_or_new(
        alloc: Global,
        held: Option<Redistribution>,
        before: &Owners,
        after: &Owners,
        id: u32,
    ) -> Result<Redistribution, OutOfMemory>
        requires nodes { before.now.nodes ≡ after.now.nodes }
        requires sizes { sizes before.now.layouts ≡ sizes after.now.layouts }
        requires node { id < before.now.nodes }
        ensures { IfOk result (λ r. r ≡ record { nodes = before.now.nodes; old = before.now.layouts; new = after.now.layouts; id = id }) }
    {
        if let Some(redistribution) = held {
            if redistribution.is_of(before, after, id) {
                return Ok(redistribution);
            }
        }
        Redistribution::new(alloc, before, after, id)
    }

    /// Whether it is the one between these owners, which are for as many nodes, on the node with this number: true exactly where it is. It
    /// compares shapes and mappings, and takes no memory.
    pub(crate) fn is_of(&self, before: &Owners, after: &Owners, id: u32) -> bool
        ensures same { IsTrue result → self.now ≡ record { nodes = before.now.nodes; old = before.now.layouts; new = after.now.layouts; id = id } }
        ensures all { self.now ≡ record { nodes = before.now.nodes; old = before.now.layouts; new = after.now.layouts; id = id } → before.now.nodes ≡ after.now.nodes → IsTrue result }
    {
        self.id == id && self.before.lies_as(before) && self.after.lies_as(after)
    }

    /// The owners after it.
    pub fn after(&self) -> &Owners
        ensures { result.now ≡ record { layouts = self.now.new; nodes = self.now.nodes } }
    {
        &self.after
    }

    /// The number of rounds.
    pub fn rounds(&self) -> usize
        ensures { result ≡ length (all_rounds self.now) }
    {
        self.rounds.len()
    }
}
