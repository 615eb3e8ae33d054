//! The letters of a phase.

ghost use Rattle.std.specs.Prelude.{◌≡◌, ◌≢◌, ◌<◌, ◌≤◌, ℕ, List, [], ◌∷◌, All, IfOk, length, replicate, slice_index_or, slice_set};
ghost use Rattle.letters.specs.Parcel.{Parcel as ParcelView};
ghost use Rattle.node_machine.specs.Post.{Post as PostView, after_send, after_take, target_of, source_of, nothing_left};

use hpf_base::OutOfMemory;
use letters::{Body, Parcel};
use std::alloc::Global;
use std::collections::VecDeque;
use std::marker::Model;

/// What of a phase is still to be sent and to be taken, and what was taken; and the numbers of the next letter to each node and from it.
#[derive(Drop)]
pub struct Post {
    outbox: VecDeque<Parcel>,
    inbox: VecDeque<u32>,
    received: Vec<Body>,
    next_to: Vec<u64>,
    next_from: Vec<u64>,
}

impl Model for Post {
    ghost use Rattle.std.specs.Prelude.{length, All, ◌<◌};
    ghost use Rattle.node_machine.specs.Post.{Post as PostView};

    ghost Value = { PostView };

    ghost view = { λ p. record {
      outbox = p.outbox.items;
      inbox = p.inbox.items;
      received = p.received.items;
      next_to = p.next_to.items;
      next_from = p.next_from.items;
    } };

    ghost invariant = { λ p. All (λ parcel. parcel.to < length p.next_to.items) p.outbox.items
        × All (λ source. source < length p.next_from.items) p.inbox.items };
}

impl Post {
    /// The post of one of so many nodes before its first phase.
    pub fn first(alloc: Global, nodes: u32) -> Result<Post, OutOfMemory>
        ensures { IfOk result (λ post. post ≡ record { outbox = []; inbox = []; received = []; next_to = replicate nodes 1; next_from = replicate nodes 1 }) }
    {
        Ok(Post {
            outbox: VecDeque::new(alloc),
            inbox: VecDeque::new(alloc),
            received: Vec::new(alloc),
            next_to: first_numbers(alloc, nodes)?,
            next_from: first_numbers(alloc, nodes)?,
        })
    }

    /// A phase is opened: this is to be sent, letters of these nodes are to be taken, and there is this room for them. It takes no memory.
    pub(crate) fn open(
        &mut self,
        outbox: VecDeque<Parcel>,
        inbox: VecDeque<u32>,
        received: Vec<Body>,
    )
        requires targets { All (λ parcel. parcel.to < length self.old.next_to) outbox.items }
        requires sources { All (λ source. source < length self.old.next_from) inbox.items }
        ensures { self.new ≡ record self.old { outbox = outbox.items; inbox = inbox.items; received = received.items } }
    {
        self.outbox = outbox;
        self.inbox = inbox;
        self.received = received;
    }

    /// A phase is opened where what was taken so far stays: this is to be sent, and letters of these nodes are to be taken. It takes no
    /// memory.
    pub(crate) fn reopen(&mut self, outbox: VecDeque<Parcel>, inbox: VecDeque<u32>)
        requires targets { All (λ parcel. parcel.to < length self.old.next_to) outbox.items }
        requires sources { All (λ source. source < length self.old.next_from) inbox.items }
        ensures { self.new ≡ record self.old { outbox = outbox.items; inbox = inbox.items } }
    {
        self.outbox = outbox;
        self.inbox = inbox;
    }

    /// What was taken from a node, or nothing.
    pub(crate) fn received(&self, node: u32) -> &[i64]
        ensures { result.now ≡ slice_index_or self.now.received node [] }
    {
        match self.received.get(node as usize) {
            Some(body) => body.as_slice(),
            None => &[],
        }
    }

    /// What was taken from each node, by number.
    pub(crate) fn all_received(&self) -> &[Body]
        ensures { result.now ≡ self.now.received }
    {
        &self.received
    }

    /// Nothing of a phase is left, and what was taken is dropped. It takes no memory.
    pub(crate) fn clear(&mut self, alloc: Global)
        ensures { self.new ≡ record self.old { outbox = []; inbox = []; received = [] } }
    {
        self.outbox = VecDeque::new(alloc);
        self.inbox = VecDeque::new(alloc);
        self.received = Vec::new(alloc);
    }

    /// The node to which the next letter goes.
    pub(crate) fn target(&self) -> Option<u32>
        ensures { result ≡ target_of self.now.outbox }
    {
        match self.outbox.front() {
            Some(parcel) => Some(parcel.to),
            None => None,
        }
    }

    /// The node from which the next letter comes.
    pub fn source(&self) -> Option<u32>
        ensures { result ≡ source_of self.now.inbox }
    {
        match self.inbox.front() {
            Some(source) => Some(*source),
            None => None,
        }
    }

    /// The number of the next letter from a node; 0 where there is no such node.
    pub(crate) fn number_from(&self, node: u32) -> u64
        ensures { result ≡ slice_index_or self.now.next_from node 0 }
    {
        match self.next_from.get(node as usize) {
            Some(number) => *number,
            None => 0,
        }
    }

    /// Takes the next parcel out, with the number of its letter. It takes no memory.
    pub fn send(&mut self) -> (Parcel, u64)
        requires { self.old.outbox ≢ [] }
        ensures number { result.1 ≡ slice_index_or self.old.next_to result.0.to 0 }
        ensures after { (rest : List ParcelView) × (self.old.outbox ≡ result.0 ∷ rest) × (self.new ≡ after_send result.0 rest self.old) }
    {
        let parcel = match self.outbox.pop_front() {
            Some(parcel) => parcel,
            None => unreachable!(),
        };
        let target = parcel.to as usize;
        let number = self.next_to[target];
        self.next_to[target] = number.wrapping_add(1);
        (parcel, number)
    }

    /// Puts away the values of the next letter, where there is room for them. It takes no memory.
    pub fn take(&mut self, body: Body)
        requires { self.old.inbox ≢ [] }
        ensures { (source : ℕ) × (rest : List ℕ) × (self.old.inbox ≡ source ∷ rest) × (self.new ≡ after_take source rest body self.old) }
    {
        let source = match self.inbox.pop_front() {
            Some(source) => source as usize,
            None => unreachable!(),
        };
        self.next_from[source] = self.next_from[source].wrapping_add(1);
        set_body(&mut self.received, source, body);
    }

    /// The number of the next letter to a node; 0 where there is no such node.
    pub fn next_number(&self, to: u32) -> u64
        ensures { result ≡ slice_index_or self.now.next_to to 0 }
    {
        match self.next_to.get(to as usize) {
            Some(number) => *number,
            None => 0,
        }
    }

    /// Whether nothing of the phase is left.
    pub(crate) fn is_over(&self) -> bool
        ensures { result ≡ nothing_left self.now.outbox self.now.inbox }
    {
        self.outbox.is_empty() && self.inbox.is_empty()
    }
}

/// Puts a node's values in the place of others, if there is such a node.
fn set_body(bodies: &mut Vec<Body>, node: usize, body: Body)
    ensures { bodies.new.items ≡ slice_set bodies.old.items node body }
{
    if node < bodies.len() {
        bodies[node] = body;
    }
}

/// The number of a pair's first letter, for each of so many nodes.
fn first_numbers(alloc: Global, nodes: u32) -> Result<Vec<u64>, OutOfMemory>
    ensures { IfOk result (λ numbers. numbers.items ≡ replicate nodes 1) }
{
    Ok(vec![in alloc; 1; nodes as usize]?)
}
