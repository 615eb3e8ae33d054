//! Lists of elements, one for each node.

ghost use Rattle.std.specs.Prelude.{◌≡◌, ◌<◌, ◌&&◌, [], IfOk, OnOk, length, map, nat_eq, replicate, slice_index_or};
ghost use Rattle.storage.specs.Storage.{is_same_spot};
ghost use Rattle.storage.specs.Spots.{spot_of};
ghost use Rattle.message_elements.specs.Ascending.{Ascends};
ghost use Rattle.message_elements.specs.Elements.{OneMore, SameAmong};
ghost use Rattle.comm_sets.specs.Noted.{Arranged, Noted};

use hpf_base::OutOfMemory;
use message_elements::{arrange_list, note};
use std::alloc::Global;
use std::marker::Model;
use storage::Spot;

/// The messages between one node and each node, by the number of the other node: of each the elements, row by row, each in
/// array-element order. Contracts see the list of these lists.
#[derive(Drop)]
pub struct Messages {
    lists: Vec<Vec<Spot>>,
}

impl Model for Messages {
    ghost use Rattle.std.specs.Prelude.{map};
    ghost use Rattle.storage.specs.Spots.{spot_of};
    ghost use Rattle.comm_sets.specs.Noted.{Lists};

    ghost Value = { Lists };

    ghost view = { λ m. map (λ v. map spot_of v.items) m.lists.items };
}

impl Messages {
    /// Nothing for any of so many nodes.
    pub(crate) fn none(alloc: Global, nodes: u32) -> Result<Messages, OutOfMemory>
        ensures { IfOk result (λ m. m ≡ replicate nodes []) }
    {
        let mut lists = Vec::new(alloc);
        for _node in 0..nodes {
            lists.push(Vec::new(alloc))?;
        }
        Ok(Messages { lists })
    }

    /// Adds the element to the node's list.
    pub(crate) fn add(&mut self, node: u32, spot: Spot) -> Result<(), OutOfMemory>
        requires { node < length self.old }
        ensures { OnOk result (Noted self.old self.new (λ other s. nat_eq node other && is_same_spot (spot_of spot) s)) }
    {
        note(&mut self.lists[node as usize], spot)?;
        Ok(())
    }

    /// Puts each list in order, and drops repetitions.
    pub(crate) fn arrange(&mut self)
        ensures { Arranged self.old self.new }
    {
        for node in 0..self.lists.len() {
            arrange_list(&mut self.lists[node]);
        }
    }

    /// The elements of the message that is exchanged with the node, row by row, each in array-element order.
    pub fn with(&self, node: u32) -> &[Spot]
        requires { node < length self.now }
        ensures { map spot_of result.now ≡ slice_index_or self.now node [] }
    {
        self.lists[node as usize].as_slice()
    }
}
